// Two transitions that conflict, the lower and the higher, and a marking and a line word at which both can fire.
use bitset::PlaceSet;

#[derive(Clone, Copy, Debug, PartialEq, Eq)]
pub struct Clash {
    pub lower: usize,
    pub higher: usize,
    pub marking: PlaceSet,
    pub lines: u32,
}
