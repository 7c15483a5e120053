// How a net is read, and how it is filled from nothing.
ghost use Rattle.std.specs.Prelude.{◌≡◌, ◌<◌, ◌≤◌, map, length, MatchOption};
ghost use Rattle.bitset.specs.Room.{word_of};
ghost use Rattle.nets.specs.Nets.{at};
ghost use Rattle.nets.specs.Stored.{net_of, transition_of, blank_net, net_with_arc, net_with_term, with_place_record};

use super::Net;
use crate::arc_kind::ArcKind;
use crate::counts::Counts;
use crate::fixed_vec::FixedVec;
use crate::term::Term;
use crate::transition::Transition;
use bitset::PlaceSet;

impl Net {
    // A net of these counts with no start place, no output raised, no arc and no term.
    pub fn blank(counts: Counts) -> Net
        ensures { net_of result ≡ blank_net counts }
    {
        Net {
            lines: counts.lines,
            outputs: counts.outputs,
            start: PlaceSet::empty(),
            raises: FixedVec::filled(0, counts.places),
            transitions: FixedVec::filled(Transition::unconnected(), counts.transitions),
        }
    }

    // The counts of its places, transitions, lines and outputs.
    pub fn counts(&self) -> Counts
        ensures places { result.places ≡ (net_of self.now).places }
        ensures transitions { result.transitions ≡ length (net_of self.now).transitions }
        ensures lines { result.lines ≡ (net_of self.now).lines }
        ensures outputs { result.outputs ≡ (net_of self.now).outputs }
    {
        Counts {
            places: self.raises.len(),
            transitions: self.transitions.len(),
            lines: self.lines,
            outputs: self.outputs,
        }
    }

    // The places that are marked at the start.
    pub fn start(&self) -> PlaceSet
        ensures { word_of result ≡ (net_of self.now).start }
    {
        self.start
    }

    // For each place the outputs that it raises.
    pub fn raises(&self) -> &[u32]
        ensures words { result.now ≡ (net_of self.now).raises }
        ensures one_each { length result.now ≡ (net_of self.now).places }
    {
        self.raises.as_slice()
    }

    // Its transitions by number.
    pub fn transitions(&self) -> &[Transition]
        ensures items { map transition_of result.now ≡ (net_of self.now).transitions }
        ensures few { length result.now ≤ 64 }
    {
        self.transitions.as_slice()
    }

    // Transition `number`, if the net has it.
    pub fn transition(&self, number: usize) -> Option<&Transition>
        ensures { MatchOption result (length (net_of self.now).transitions ≤ number) (λ t. (number < length (net_of self.now).transitions) × (transition_of t.now ≡ at (net_of self.now) number)) }
    {
        self.transitions().get(number)
    }

    // Filling a net refuses nothing, and answers nothing: the rules of a file are tested before.

    // Says what `place` raises and whether it starts marked; nothing changes where the net lacks the place.
    pub fn set_place(&mut self, place: usize, starts: bool, raise: u32)
        ensures { net_of self.new ≡ with_place_record (net_of self.old) place starts raise }
    {
        if place >= self.raises.len() {
            return;
        }
        self.raises.set(place, raise);
        if starts {
            self.start = self.start.with(place);
        }
    }

    // One arc more; nothing changes where the net lacks the transition or the place.
    pub fn add_arc(&mut self, transition: usize, kind: ArcKind, place: usize)
        ensures { net_of self.new ≡ net_with_arc (net_of self.old) transition kind place }
    {
        if place >= self.raises.len() {
            return;
        }
        if let Some(held) = self.transition(transition) {
            // A changed copy is put back: an element of an array that is lent by `&mut` gets no proof yet.
            let joined = held.with_arc(kind, place);
            self.transitions.set(transition, joined);
        }
    }

    // One term more; nothing changes where the net lacks the transition, or the transition has four.
    pub fn add_term(&mut self, transition: usize, term: Term)
        ensures { net_of self.new ≡ net_with_term (net_of self.old) transition term }
    {
        if let Some(held) = self.transition(transition) {
            // A changed copy is put back, as of an arc.
            let given = held.with_term(term);
            self.transitions.set(transition, given);
        }
    }
}
