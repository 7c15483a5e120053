// Which transitions stand in each other's way. Two parameters: a struct of both would be made for one call and taken apart in it.
ghost use Rattle.std.specs.Prelude.{◌≡◌};
ghost use Rattle.nets.specs.Firing.{conflict as conflicting, ConflictsHinder};
ghost use Rattle.nets.specs.Stored.{transition_of};

use nets::Transition;

// Whether two transitions share a place in one of the ways in which they conflict.
fn share_a_place(one: &Transition, other: &Transition) -> bool
    ensures { result ≡ conflicting (transition_of one.now) (transition_of other.now) }
{
    one.consumes.meets(other.consumes)
        || one.produces.meets(other.produces)
        || one.consumes.meets(other.tests)
        || one.tests.meets(other.consumes)
        || one.produces.meets(other.inhibits)
        || one.inhibits.meets(other.produces)
}

// Whether two transitions conflict.
pub fn conflict(one: &Transition, other: &Transition) -> bool
    ensures answer { result ≡ conflicting (transition_of one.now) (transition_of other.now) }
    ensures law { ConflictsHinder }
{
    share_a_place(one, other)
}
