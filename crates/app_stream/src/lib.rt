// What the programs that read a stream share: the pieces that the input gives (`pieces`), and what is longer than the collector's store passed over (`skip`). No
// customer links it.
#![tactic(auto)]

pub mod pieces;
pub mod skip;
