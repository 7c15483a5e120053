// Ladders: steps and coils, which steps are whole rungs, and their run over any kind of level.
#![tactic(auto)]

mod coil;
mod flow;
mod grammar;
mod laws;
mod run;
mod step;

pub use coil::{COILS, Coil, NoSuchCoil};
pub use grammar::{Fault, MAX_STEPS};
pub use laws::ladder_laws_hold;
pub use step::{Op, Role, Step};
