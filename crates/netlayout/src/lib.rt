// The layout of a net file, and the refusals of all its rules.
#![tactic(auto)]

mod layout;
mod refusal;
mod table;

pub use layout::{LONGEST, SHORTEST, Tables, counts_in, tables_in};
pub use refusal::{PairFault, RecordFault, Refusal};
pub use table::Table;
