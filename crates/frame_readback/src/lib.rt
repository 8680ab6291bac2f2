// "A frame from our writer .. is accepted and shows what 01's decoding makes of the given picture's rounded coefficients": laws only.

#![tactic(auto)]
