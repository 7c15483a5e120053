// The token game: one transition is fired at a marking, with no start rule. An open call takes net, marking and lines apart, as a caller has them.
ghost use Rattle.std.specs.Prelude.{◌≡◌, is_ok, IfOk};
ghost use Rattle.bitset.specs.Room.{word_of};
ghost use Rattle.bitset.specs.Lists.{first_of};
ghost use Rattle.nets.specs.Firing.{fire as fired_marking};
ghost use Rattle.nets.specs.Nets.{at};
ghost use Rattle.tokengame.specs.Games.{obstacles, playable, GameLaws};
ghost use Rattle.std.specs.Result.{result_err};
ghost use Rattle.nets.specs.Stored.{net_of, transition_of};

use crate::firing::{condition_holds, fire, hindering};
use crate::game_refusal::GameRefusal;
use crate::moment::Moment;
use bitset::PlaceSet;
use nets::{Net, Transition};

// Transition `number` of the net, if nothing stands in the way of firing it.
fn free_to_fire(net: &Net, now: Moment, number: usize) -> Result<&Transition, GameRefusal>
    ensures refused { result_err result ≡ first_of (obstacles (net_of net.now) (word_of now.marking) now.lines number) }
    ensures accepted { is_ok result ≡ playable (net_of net.now) (word_of now.marking) now.lines number }
    ensures granted { IfOk result (λ t. transition_of t.now ≡ at (net_of net.now) number) }
    ensures laws { GameLaws (net_of net.now) (word_of now.marking) now.lines number }
{
    let Moment { marking, lines } = now;
    if !now.has_places(net) {
        return Err(GameRefusal::UnknownPlace);
    }
    let Some(transition) = net.transition(number) else {
        return Err(GameRefusal::UnknownTransition);
    };
    if let Some(place) = hindering(transition, marking).lowest() {
        return Err(GameRefusal::NotEnabled(place));
    }
    if !condition_holds(transition.terms.as_slice(), lines) {
        return Err(GameRefusal::ConditionFails);
    }
    Ok(transition)
}

// The marking after transition `number` fires, or the first thing that stands in its way.
pub fn play(
    net: &Net,
    marking: PlaceSet,
    lines: u32,
    number: usize,
) -> Result<PlaceSet, GameRefusal>
    ensures refused { result_err result ≡ first_of (obstacles (net_of net.now) (word_of marking) lines number) }
    ensures accepted { is_ok result ≡ playable (net_of net.now) (word_of marking) lines number }
    ensures granted { IfOk result (λ m. word_of m ≡ fired_marking (word_of marking) (at (net_of net.now) number)) }
    ensures laws { GameLaws (net_of net.now) (word_of marking) lines number }
{
    let now = Moment { marking, lines };
    let transition = free_to_fire(net, now, number)?;
    Ok(fire(transition, marking))
}
