// Recordings of calls: their records (`read`), and the memory that a recorded call is lent (`lent`). No customer links it.
#![tactic(auto)]

pub mod lent;
pub mod read;
