//! Program indicators: `program_plan` makes one ready once, `subjects_during` finds its subjects in some periods (each event
//! alone, or the events of each enrollment), and `value` is its value over those of some units. How it is printed stands above.
#![tactic(auto)]

mod coding;
mod counting;
mod days;
mod enrolled;
mod evaluation;
mod grouping;
mod items;
mod joined;
mod measure;
mod micros;
mod placed;
mod plan;
mod sampled;
mod samples;
mod seen;
mod tally;
mod under;

pub use placed::PlacedEvents;
pub use plan::{ProgramPlan, Subjects, program_plan, subjects_during, value};
pub use sampled::SampledEvents;
