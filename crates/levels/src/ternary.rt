// Three-valued levels: low, high, or unknown, which may be either.
ghost use Rattle.std.proofs.Common.{rules};
ghost use Rattle.std.specs.Prelude.{◌≡◌};
ghost use Rattle.std.specs.Cmp.{partial_order_from_own_ties};
ghost use Rattle.std.specs.Cmp.Rules.{comparing};
ghost use Rattle.std.specs.Ordering.{nat_cmp, on, as_partial_cmp};
ghost use Rattle.levels.specs.Ternaries.{rank, ternary_admits, ternary_operations, ternary_laws};

use crate::level::Level;
use std::cmp::Ordering;

// An enum of its own: `?`, `zip` and the like on an `Option<bool>` would make unknown of low and unknown, which is low.
#[derive(Clone, Copy, Debug, PartialEq, Eq)]
pub enum Ternary {
    Low,
    High,
    Unknown,
}

impl Ternary {
    // Its place in the order, in which unknown stands between low and high.
    fn rank(self) -> u8
        ensures { result ≡ rank self }
    {
        match self {
            Ternary::Low => 0,
            Ternary::Unknown => 1,
            Ternary::High => 2,
        }
    }
}

// Not derived: a derived order is that of the cases' numbers, and callers may have these from a cast.
impl Ord for Ternary {
    ghost cmp = { on rank nat_cmp };

    ghost total = { Prim.search (comparing, rules) };

    ghost matches_partial_cmp = { Prim.search (comparing, rules) };

    ghost matches_eq = { Prim.search (comparing, rules) };

    fn cmp(&self, other: &Ternary) -> Ordering {
        self.rank().cmp(&other.rank())
    }
}

impl PartialOrd for Ternary {
    ghost partial_cmp = { as_partial_cmp (on rank nat_cmp) };

    ghost laws = { partial_order_from_own_ties (Prim.search (comparing, rules)) (Prim.search (comparing, rules)) };

    fn partial_cmp(&self, other: &Ternary) -> Option<Ordering> {
        Some(self.cmp(other))
    }
}

impl Level for Ternary {
    ghost admits = { ternary_admits };

    ghost operations = { ternary_operations };

    ghost lawful = { ternary_laws };

    fn low() -> Ternary {
        Ternary::Low
    }

    fn high() -> Ternary {
        Ternary::High
    }

    // Matches: the lesser by an order that is not derived took half as long again.
    fn both(self, other: Ternary) -> Ternary {
        match (self, other) {
            (Ternary::Low, _) | (_, Ternary::Low) => Ternary::Low,
            (Ternary::High, Ternary::High) => Ternary::High,
            _ => Ternary::Unknown,
        }
    }

    fn either(self, other: Ternary) -> Ternary {
        match (self, other) {
            (Ternary::High, _) | (_, Ternary::High) => Ternary::High,
            (Ternary::Low, Ternary::Low) => Ternary::Low,
            _ => Ternary::Unknown,
        }
    }

    fn inverse(self) -> Ternary {
        match self {
            Ternary::Low => Ternary::High,
            Ternary::High => Ternary::Low,
            Ternary::Unknown => Ternary::Unknown,
        }
    }

    fn plain(self) -> Option<bool> {
        match self {
            Ternary::Low => Some(false),
            Ternary::High => Some(true),
            Ternary::Unknown => None,
        }
    }
}
