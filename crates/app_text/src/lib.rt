// What the programs share: what they say (`lines`), their arguments (`arguments`), files by their names (`files`), inputs read whole (`loading`).
// No customer links it.
#![tactic(auto)]

pub mod arguments;
pub mod files;
pub mod lines;
pub mod loading;
