// A transition: the places that its arcs join it to, by kind, and the terms of its condition.
ghost use Rattle.std.specs.Prelude.{◌≡◌};
ghost use Rattle.bitset.specs.Sets.{has};
ghost use Rattle.nets.specs.Nets.{unconnected as no_arc_or_term};
ghost use Rattle.nets.specs.Stored.{transition_of, with_arc, given_term, joined_places};

use crate::arc_kind::ArcKind;
use crate::term::{Term, Terms};
use bitset::PlaceSet;

#[derive(Clone, Copy)]
pub struct Transition {
    pub consumes: PlaceSet,
    pub produces: PlaceSet,
    pub tests: PlaceSet,
    pub inhibits: PlaceSet,
    pub terms: Terms,
}

impl Transition {
    // A transition with no arc and no term.
    pub(crate) fn unconnected() -> Transition
        ensures { transition_of result ≡ no_arc_or_term }
    {
        Transition {
            consumes: PlaceSet::empty(),
            produces: PlaceSet::empty(),
            tests: PlaceSet::empty(),
            inhibits: PlaceSet::empty(),
            terms: Terms::filled(Term { high: 0, low: 0 }, 0),
        }
    }

    // Whether an arc of some kind joins it to `place`.
    pub fn joins(&self, place: usize) -> bool
        ensures { result ≡ has (joined_places (transition_of self.now)) place }
    {
        let moved = self.consumes.union(self.produces);
        let seen = self.tests.union(self.inhibits);
        moved.union(seen).has(place)
    }

    // The transition with one arc more, to `place`; an arm for each kind, as a map from kinds to sets would name none of them.
    pub(crate) fn with_arc(self, kind: ArcKind, place: usize) -> Transition
        ensures { transition_of result ≡ with_arc (transition_of self) kind place }
    {
        match kind {
            ArcKind::Consumes => Transition {
                consumes: self.consumes.with(place),
                ..self
            },
            ArcKind::Produces => Transition {
                produces: self.produces.with(place),
                ..self
            },
            ArcKind::Tests => Transition {
                tests: self.tests.with(place),
                ..self
            },
            ArcKind::Inhibits => Transition {
                inhibits: self.inhibits.with(place),
                ..self
            },
        }
    }

    // The transition with one term more; as it is, where it has four.
    pub(crate) fn with_term(self, term: Term) -> Transition
        ensures { transition_of result ≡ given_term (transition_of self) term }
    {
        let mut terms = self.terms;
        terms.push(term);
        Transition { terms, ..self }
    }
}
