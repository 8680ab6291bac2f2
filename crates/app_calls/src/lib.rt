// Header calls and frame calls of the library, each with the line that it answers (`calls`, `lines`), and a stream given to the collector, whose parts go to their
// calls (`given`). The calls that only a recording makes are in `app_answers`. No customer links it.
#![tactic(auto)]

pub mod calls;
pub mod given;
pub mod lines;
