// Signal interpreted Petri nets: the structs that hold one, of fixed size, and what a net means.
#![tactic(auto)]

mod arc_kind;
mod clash;
mod counts;
mod fixed_vec;
mod net;
mod quantity;
mod refusal_code;
mod term;
mod transition;

pub use arc_kind::{ArcKind, UnknownKind};
pub use clash::Clash;
pub use counts::Counts;
pub use fixed_vec::FixedVec;
pub use net::Net;
pub use quantity::Quantity;
pub use refusal_code::RefusalCode;
pub use term::{Term, Terms};
pub use transition::Transition;
