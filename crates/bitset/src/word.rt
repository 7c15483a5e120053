// Words of bits as sets of numbers: number n is in a word where bit n is 1.
ghost use Rattle.std.specs.Prelude.{◌≡◌, ℕ, min};
ghost use Rattle.bitset.specs.Sets.{has as has_member, within as is_within, apart as is_apart, below as all_below};

pub trait Word: Copy {
    // How many numbers a word has room for.
    ghost room: { ℕ };

    // The word as a number.
    ghost number: { Self → ℕ };

    // The word in 64 bits, which hold every kind of word; no `Into<u64>`, whose clause tells a relation and no number.
    fn wide(self) -> u64
        ensures { result ≡ number self };

    // The set of all numbers below `count` for which there is room.
    fn below(count: usize) -> Self
        ensures { number result ≡ all_below (min count room) };

    // Whether number `n` is in the word; none is for which there is no room.
    fn has(self, n: usize) -> bool
        ensures { result ≡ has_member (number self) n }
    {
        let word = self.wide();
        n < 64 && word >> n & 1 == 1
    }

    // Whether each number in the word is in `whole`.
    fn within(self, whole: Self) -> bool
        ensures { result ≡ is_within (number self) (number whole) }
    {
        let part = self.wide();
        part & whole.wide() == part
    }

    // Whether the two have no number in common.
    fn apart(self, other: Self) -> bool
        ensures { result ≡ is_apart (number self) (number other) }
    {
        self.wide() & other.wide() == 0
    }
}

// Words of 32 bits hold lines and outputs.
impl Word for u32 {
    ghost room = { 32 };

    ghost number = { λ w. w };

    fn wide(self) -> u64 {
        u64::from(self)
    }

    fn below(count: usize) -> u32 {
        u64::below(count.min(32)) as u32
    }
}

// Words of 64 bits hold places and transitions.
impl Word for u64 {
    ghost room = { 64 };

    ghost number = { λ w. w };

    fn wide(self) -> u64 {
        self
    }

    fn below(count: usize) -> u64 {
        if count < 64 {
            (1 << count) - 1
        } else {
            u64::MAX
        }
    }
}
