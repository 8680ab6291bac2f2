// Short frames of our own, read back: document 02's request Eleven over the calls (specs/Request). There is no code here.

#![tactic(auto)]
