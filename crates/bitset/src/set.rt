// Sets of what a net numbers: the one type by which all code holds places and transitions, so that its width is decided here.
ghost use Rattle.std.specs.Prelude.{◌≡◌, min, not, is_some, ◌==◌, bit_and, bit_or};
ghost use Rattle.bitset.specs.Room.{word_of, room, with_member, lowest_in, how_many};
ghost use Rattle.bitset.specs.Sets.{has as has_member, within, apart, without as taken_away, below as all_below};

use crate::word::Word;
use std::marker::PhantomData;

// How many members a set has room for.
const ROOM: usize = 64;

// What a set is of; a set of places is no set of transitions.
#[derive(Clone, Copy, Debug, PartialEq, Eq)]
pub struct Places;

#[derive(Clone, Copy, Debug, PartialEq, Eq)]
pub struct Transitions;

pub type PlaceSet = Set<Places>;

pub type TransitionSet = Set<Transitions>;

#[derive_where(Clone, Copy, Debug, PartialEq, Eq)]
// No `impl Model`: a struct or an enum that holds a set could then be handed over by name once only, though it can be copied.
pub struct Set<K> {
    word: u64,
    of: PhantomData<K>,
}

// The set of the members whose bits are 1 in a word.
impl<K> From<u64> for Set<K> {
    ghost from_gives = { λ w s. word_of s ≡ w };

    fn from(word: u64) -> Set<K> {
        Set {
            word,
            of: PhantomData,
        }
    }
}

// The word in which the bits of its members are 1.
impl<K> From<Set<K>> for u64 {
    ghost from_gives = { λ s w. w ≡ word_of s };

    fn from(set: Set<K>) -> u64 {
        set.word
    }
}

// A constant for each kind: of one for all kinds no caller is told what it is.
impl Set<Places> {
    // How many places a set has room for.
    pub const ROOM: usize = ROOM;
}

impl Set<Transitions> {
    // How many transitions a set has room for.
    pub const ROOM: usize = ROOM;
}

impl<K> Set<K> {
    // No member.
    pub fn empty() -> Set<K>
        ensures { word_of result ≡ 0 }
    {
        Set::from(0)
    }

    // All numbers below `count`, of which a set has room for 64.
    pub fn below(count: usize) -> Set<K>
        ensures { word_of result ≡ all_below (min count room) }
    {
        Set::from(u64::below(count))
    }

    // Whether `number` is in the set.
    pub fn has(self, number: usize) -> bool
        ensures { result ≡ has_member (word_of self) number }
    {
        self.word.has(number)
    }

    // Whether no number is in the set.
    pub fn is_empty(self) -> bool
        ensures { result ≡ (word_of self == 0) }
    {
        self.word == 0
    }

    // Whether each member of `part` is in the set.
    pub fn includes(self, part: Set<K>) -> bool
        ensures { result ≡ within (word_of part) (word_of self) }
    {
        part.word.within(self.word)
    }

    // Whether some number is in both sets.
    pub fn meets(self, other: Set<K>) -> bool
        ensures { result ≡ not (apart (word_of self) (word_of other)) }
    {
        !self.word.apart(other.word)
    }

    // The set and `number`; the set as it is where there is no room for such a number.
    pub fn with(self, number: usize) -> Set<K>
        ensures { word_of result ≡ with_member (word_of self) number }
    {
        if number < ROOM {
            Set::from(self.word | 1 << number)
        } else {
            self
        }
    }

    // The members of either set.
    pub fn union(self, other: Set<K>) -> Set<K>
        ensures { word_of result ≡ bit_or (word_of self) (word_of other) }
    {
        Set::from(self.word | other.word)
    }

    // The members of both sets.
    pub fn common(self, other: Set<K>) -> Set<K>
        ensures { word_of result ≡ bit_and (word_of self) (word_of other) }
    {
        Set::from(self.word & other.word)
    }

    // The members that are not in `other`.
    pub fn without(self, other: Set<K>) -> Set<K>
        ensures { word_of result ≡ taken_away (word_of self) (word_of other) }
    {
        Set::from(self.word & !other.word)
    }

    // The lowest member of the set, which has one unless it is empty.
    pub fn lowest(self) -> Option<usize>
        ensures lowest { result ≡ lowest_in (word_of self) }
        ensures found { is_some result ≡ not (word_of self == 0) }
    {
        if self.word == 0 {
            return None;
        }
        Some(self.word.trailing_zeros() as usize)
    }

    // How many members the set has.
    pub fn count(self) -> usize
        ensures { result ≡ how_many (word_of self) }
    {
        self.word.count_ones() as usize
    }
}
