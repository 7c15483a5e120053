// The token game of a net: which transitions can fire and which conflict, games, rounds and clashes.
#![tactic(auto)]

mod clashing;
mod conflicts;
mod firing;
mod game;
mod game_refusal;
mod moment;
mod one_round;
mod raised_outputs;

pub use clashing::first_clash;
pub use conflicts::conflict;
pub use firing::{can_fire, hindering};
pub use game::play;
pub use game_refusal::GameRefusal;
pub use one_round::{Outcome, round};
pub use raised_outputs::outputs;
