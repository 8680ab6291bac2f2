// THE DEMANDS on one page (specs/Demands), over the calls as a customer sees them (calls/specs/Calls), and their proof (proofs/Demands). Laws only.

#![tactic(auto)]
