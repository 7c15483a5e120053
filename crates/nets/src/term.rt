// A term of a condition: it holds when each line of `high` is high and each line of `low` is low.
use crate::fixed_vec::FixedVec;

// The terms of a condition, at most four, in file order.
pub type Terms = FixedVec<Term, 4>;

impl Terms {
    // How many terms a condition may have.
    pub const MOST: usize = 4;
}

#[derive(Clone, Copy, Debug, PartialEq, Eq)]
pub struct Term {
    pub high: u32,
    pub low: u32,
}
