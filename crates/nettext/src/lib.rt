// Nets and refusals in words, for whoever reads what a program prints.
#![tactic(auto)]

mod net_text;
mod nouns;
mod reason;

pub use net_text::NetText;
pub use nouns::{Counted, Noun};
pub use reason::Reason;
