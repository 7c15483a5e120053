// Levels of a coil: what any kind of level has to keep, plain levels, and levels of which some are unknown.
#![tactic(auto)]

mod level;
mod plain;
mod ternary;

pub use level::Level;
pub use ternary::Ternary;
