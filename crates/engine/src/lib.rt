// The vote engine for one head, by value: document 01's reading, start, tick and sending.
//
// Tests of the definitions are joined by `&` and `|`: both sides are cheap, and a proof has one path. Where
// a side is to be spared, as in the look, they are joined by `&&` and `||`. Numbers are widened by `as`: the
// check shows that nothing is lost, and a `From` would be one more call in each proof.
//
// Nothing has a `requires`: every input has its answer, and each promise cites the definition of
// crate `rules` that gives it.
#![tactic(auto)]

mod ballot;
mod head;
mod heard;
mod list;
mod look;
mod said;
mod step;
mod ticks;

pub use ballot::read;
pub use head::{own_ballot, send, sound, start};
pub use ticks::tick;
