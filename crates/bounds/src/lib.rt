// The frame writer's 9 and 6 (01, "Numbers the fitter sees") cannot happen, whatever the picture: laws only.

#![tactic(auto)]
