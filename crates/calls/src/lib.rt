// The six calls as a customer sees them (01, "Numbers the fitter sees"), so that any crate above can speak of them and the page can name what it says. Laws only.

#![tactic(auto)]
