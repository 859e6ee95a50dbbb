// The bench: whole votes from a run file, in a lent table of heads, and the report's text.
//
// Nothing public has a `requires`: every file has its answer, and each promise cites the definition
// of crate `file` that gives it.
#![tactic(auto)]

mod figures;
mod heads;
mod lines;
mod places;
mod plans;
mod printed;
mod sections;
mod table;
mod text;
mod words;

pub use printed::report;
pub use table::{bench, run_file};
pub use text::Text;
