// A net, held in arrays of fixed size; its counts are in their ranges.
ghost use Rattle.std.specs.Prelude.{length};
ghost use Rattle.nets.specs.FixedVecs.{listed};
ghost use Rattle.nets.specs.Nets.{CountsInRange};

use crate::fixed_vec::FixedVec;
use crate::transition::Transition;
use bitset::PlaceSet;

mod methods;

#[derive(Clone, Copy)]
pub struct Net {
    lines: usize,
    outputs: usize,
    start: PlaceSet,
    raises: FixedVec<u32, 64>,
    transitions: FixedVec<Transition, 64>,
    ghost in_range: { CountsInRange (length (listed raises)) (length (listed transitions)) lines outputs },
}
