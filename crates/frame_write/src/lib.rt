// The frame writer of document 01: what a frame takes (`size`), its tiles (`put`), and the call that judges, measures and writes (`call`).
#![tactic(auto)]

pub mod call;
pub mod put;
pub mod size;
