// The net file: its records, the rules on them, the reader, and the check.
#![tactic(auto)]

mod arcs;
mod checking;
mod places;
mod reader;
mod records;
mod strictness;
mod terms;
mod transitions;

pub use checking::check;
pub use reader::read;
pub use strictness::Strictness;
