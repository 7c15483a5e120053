// Words as sets of numbers, and the sets of places and of transitions.
#![tactic(auto)]

ghost use Rattle.std.specs.Prelude.{◌≡◌, true};
ghost use Rattle.bitset.specs.Laws.{SetLaws};

mod set;
mod word;

pub use set::{PlaceSet, Places, Set, TransitionSet, Transitions};
pub use word::Word;

// The laws of words as sets, over every width; the contract is the theorem.
pub fn set_laws_hold() -> bool
    ensures laws { SetLaws }
    ensures answer { result ≡ true }
{
    true
}
