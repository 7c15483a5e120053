// The outputs of a marking. The net and the marking are parameters apart, since a caller has them from different hands.
ghost use Rattle.std.specs.Prelude.{◌≡◌, if◌then◌else◌, bit_or};
ghost use Rattle.bitset.specs.Room.{word_of};
ghost use Rattle.bitset.specs.Sets.{has};
ghost use Rattle.nets.specs.Rounds.{outputs_of, Raised};
ghost use Rattle.nets.specs.Stored.{net_of};

use bitset::PlaceSet;
use nets::Net;

// What `place` raises, if it is marked, beside what is raised already.
fn raise(marking: PlaceSet, place: usize, word: u32, raised: u32) -> u32
    ensures { result ≡ bit_or (if has (word_of marking) place then word else 0) raised }
{
    let more = if marking.has(place) { word } else { 0 };
    more | raised
}

// All that the marked places raise.
pub fn outputs(net: &Net, marking: PlaceSet) -> u32
    ensures answer { result ≡ outputs_of (net_of net.now) (word_of marking) }
    ensures law { Raised (net_of net.now) (word_of marking) }
{
    let mut raised = 0;
    for (place, word) in net.raises().iter().enumerate() {
        raised = raise(marking, place, *word, raised);
    }
    raised
}
