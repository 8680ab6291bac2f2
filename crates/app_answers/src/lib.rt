// The calls that only a recording makes, each with the line that it answers: the component's reader and writer, the header writer and the frame writers
// (`writers`), settings (`cabinet`), capabilities and acknowledgements (`capabilities`), the collector (`collected`), the checker and the planner (`plans`).
// Header calls and frame calls are in `app_calls`. No customer links it.
#![tactic(auto)]

pub mod cabinet;
pub mod capabilities;
pub mod collected;
pub mod lines;
pub mod plans;
pub mod writers;
