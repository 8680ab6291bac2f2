// A filter in front of the panel: what other senders write, made acceptable where only its codes or the order of its headers are at fault; everything else goes
// through as it came.
#![tactic(auto)]

pub mod frames;
pub mod headers;
pub mod held;
