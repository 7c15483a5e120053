// When a transition can fire, and what firing it does. Functions and no methods: those of another crate's type would need a trait of one `impl`.
ghost use Rattle.std.specs.Prelude.{◌≡◌};
ghost use Rattle.bitset.specs.Room.{word_of};
ghost use Rattle.nets.specs.Firing.{term_holds, condition, needs as needed_places, forbids as forbidden_places, enabled, hindering as hindering_places, can_fire, fire as fired_marking};
ghost use Rattle.nets.specs.Stored.{transition_of};

use bitset::{PlaceSet, Word};
use nets::{Term, Transition};

// Whether a term holds under a line word.
fn holds(term: Term, lines: u32) -> bool
    ensures { result ≡ term_holds lines term }
{
    term.high.within(lines) && term.low.apart(lines)
}

// Whether one of the terms of a condition holds under a line word.
pub(crate) fn condition_holds(terms: &[Term], lines: u32) -> bool
    ensures { result ≡ condition lines terms.now }
{
    terms.iter().any(|term| holds(*term, lines))
}

// The places that have to be marked where a transition fires.
pub(crate) fn needs(transition: &Transition) -> PlaceSet
    ensures { word_of result ≡ needed_places (transition_of transition.now) }
{
    transition.consumes.union(transition.tests)
}

// The places that have to be unmarked where a transition fires.
pub(crate) fn forbids(transition: &Transition) -> PlaceSet
    ensures { word_of result ≡ forbidden_places (transition_of transition.now) }
{
    transition.produces.union(transition.inhibits)
}

// The places for which a transition is not enabled.
pub fn hindering(transition: &Transition, marking: PlaceSet) -> PlaceSet
    ensures { word_of result ≡ hindering_places (word_of marking) (transition_of transition.now) }
{
    let unmarked = needs(transition).without(marking);
    let marked = forbids(transition).common(marking);
    unmarked.union(marked)
}

// Whether a transition is enabled at a marking.
fn is_enabled(transition: &Transition, marking: PlaceSet) -> bool
    ensures { result ≡ enabled (word_of marking) (transition_of transition.now) }
{
    marking.includes(needs(transition)) && !forbids(transition).meets(marking)
}

// Whether a transition can fire at a marking under a line word.
pub fn can_fire(transition: &Transition, marking: PlaceSet, lines: u32) -> bool
    ensures { result ≡ can_fire (word_of marking) lines (transition_of transition.now) }
{
    is_enabled(transition, marking) && condition_holds(transition.terms.as_slice(), lines)
}

// The marking after a transition fires.
pub(crate) fn fire(transition: &Transition, marking: PlaceSet) -> PlaceSet
    ensures { word_of result ≡ fired_marking (word_of marking) (transition_of transition.now) }
{
    marking
        .without(transition.consumes)
        .union(transition.produces)
}
