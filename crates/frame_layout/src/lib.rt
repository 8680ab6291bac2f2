// "Blocks, little-endian" of document 01: where everything stands in a frame, and its first fault in 01's order. Definitions and laws only.

#![tactic(auto)]
