// The records of a recording for `replay`, but for the collector's: taken off standard input (`taking`), and each made the call that it asks for, on what is lent
// (`told`, `wrote`, `known`, `frames`). No customer links it.
#![tactic(auto)]

pub mod frames;
pub mod known;
pub mod taking;
pub mod told;
pub mod wrote;
