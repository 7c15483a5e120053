// A round: which transitions fire together at a marking under a line word, and where that ends. Net, marking and lines are apart, as a caller has them.
ghost use Rattle.std.specs.Prelude.{◌≡◌};
ghost use Rattle.bitset.specs.Room.{word_of};
ghost use Rattle.nets.specs.Rounds.{begins as beginning, fire_all as fired_together, report as report_of, ends, Round, LawsTellTheRound, RoundsKeepWeights, LinesIgnored};
ghost use Rattle.nets.specs.Stored.{net_of};

use crate::moment::Moment;
use bitset::{PlaceSet, TransitionSet};
use nets::Net;

// Where a round begins.
fn begins(net: &Net, marking: PlaceSet) -> PlaceSet
    ensures { word_of result ≡ beginning (net_of net.now) (word_of marking) }
{
    if marking.is_empty() {
        net.start()
    } else {
        marking
    }
}

// The marking after all of `fired` fire together.
fn fire_all(net: &Net, fired: TransitionSet, marking: PlaceSet) -> PlaceSet
    ensures { word_of result ≡ fired_together (net_of net.now) (word_of fired) (word_of marking) }
{
    let mut consumed = PlaceSet::empty();
    let mut produced = PlaceSet::empty();
    for (number, transition) in net.transitions().iter().enumerate() {
        if fired.has(number) {
            consumed = transition.consumes.union(consumed);
            produced = transition.produces.union(produced);
        }
    }
    marking.without(consumed).union(produced)
}

// What a round reports, and the marking where it ends.
#[derive(Clone, Copy, Debug, PartialEq, Eq)]
pub struct Outcome {
    pub report: TransitionSet,
    pub marking: PlaceSet,
}

// One round from a marking under a line word.
pub fn round(net: &Net, marking: PlaceSet, lines: u32) -> Outcome
    ensures report { word_of result.report ≡ report_of (net_of net.now) (word_of marking) lines }
    ensures end { word_of result.marking ≡ ends (net_of net.now) (word_of marking) lines }
    ensures law { Round (net_of net.now) lines (word_of marking) (word_of result.report) (word_of result.marking) }
    ensures told { LawsTellTheRound }
    ensures weights { RoundsKeepWeights }
    ensures ignored { LinesIgnored (net_of net.now) (word_of marking) lines }
{
    let marking = begins(net, marking);
    let report = Moment { marking, lines }.taken(net);
    let marking = fire_all(net, report, marking);
    Outcome { report, marking }
}
