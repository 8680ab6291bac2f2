// The frame call of document 01: the check pass over all tiles (`check`), and the call that checks, then draws (`call`).
#![tactic(auto)]

pub mod call;
pub mod check;
