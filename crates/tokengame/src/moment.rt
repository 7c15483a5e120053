// A marking and a line word: what says which transitions can fire. Open calls take these and the net apart: a caller has them from different hands.
ghost use Rattle.std.specs.Prelude.{◌≡◌, ◌<◌, ◌&&◌, length};
ghost use Rattle.bitset.specs.Room.{word_of};
ghost use Rattle.bitset.specs.Sets.{has, within, below};
ghost use Rattle.nets.specs.Firing.{can_fire as fires, conflict as is_conflict};
ghost use Rattle.nets.specs.Nets.{at};
ghost use Rattle.nets.specs.Rounds.{conflicts_below, take_next, taken as taken_below};
ghost use Rattle.nets.specs.Stored.{net_of, transition_of};

use crate::conflicts::conflict;
use crate::firing::can_fire;
use bitset::{PlaceSet, TransitionSet};
use nets::{Net, Transition};

#[derive(Clone, Copy)]
pub(crate) struct Moment {
    pub(crate) marking: PlaceSet,
    pub(crate) lines: u32,
}

// Whether a transition, which has this number, is taken and conflicts with `transition`.
fn excludes(taken: TransitionSet, number: usize, held: &Transition, transition: &Transition) -> bool
    ensures { result ≡ (has (word_of taken) number && is_conflict (transition_of held.now) (transition_of transition.now)) }
{
    taken.has(number) && conflict(held, transition)
}

// Whether one of the transitions taken below `number` conflicts with `transition`.
fn excluded(net: &Net, taken: TransitionSet, number: usize, transition: &Transition) -> bool
    ensures { number < length (net_of net.now).transitions → result ≡ conflicts_below (net_of net.now) (word_of taken) (transition_of transition.now) number }
{
    let transitions = net.transitions();
    // A slice and no `take`, as for a clash.
    let below = &transitions[..number.min(transitions.len())];
    below
        .iter()
        .enumerate()
        .any(|(other, held)| excludes(taken, other, held, transition))
}

impl Moment {
    // Whether the net has each place of the marking.
    pub(crate) fn has_places(&self, net: &Net) -> bool
        ensures { result ≡ within (word_of self.now.marking) (below (net_of net.now).places) }
    {
        PlaceSet::below(net.counts().places).includes(self.marking)
    }

    // The transitions that are taken after this one, told with its number as `enumerate` tells both, if `taken` are those below it.
    fn take_next(
        &self,
        net: &Net,
        taken: TransitionSet,
        number: usize,
        transition: &Transition,
    ) -> TransitionSet
        requires few { number < 64 }
        requires of_the_net { number < length (net_of net.now).transitions }
        requires same { transition_of transition.now ≡ at (net_of net.now) number }
        ensures { word_of result ≡ take_next (net_of net.now) (word_of self.now.marking) self.now.lines number (word_of taken) }
    {
        if can_fire(transition, self.marking, self.lines)
            && !excluded(net, taken, number, transition)
        {
            taken.with(number)
        } else {
            taken
        }
    }

    // The transitions that are taken, in rising number.
    pub(crate) fn taken(&self, net: &Net) -> TransitionSet
        ensures { word_of result ≡ taken_below (net_of net.now) (word_of self.now.marking) self.now.lines (length (net_of net.now).transitions) }
    {
        let mut taken = TransitionSet::empty();
        for (number, transition) in net.transitions().iter().enumerate() {
            taken = self.take_next(net, taken, number, transition);
        }
        taken
    }
}
