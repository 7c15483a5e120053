// Counts and numbers of what a net has, in words.
ghost use Rattle.std.specs.Prelude.{◌≡◌};
ghost use Rattle.bitset.specs.Room.{word_of};
ghost use Rattle.nettext.specs.declared.nouns.Noun.TheVariants.{Place, Line, Output};

use bitset::PlaceSet;
use std::fmt;

// What is counted or numbered.
#[derive(Clone, Copy, Debug, PartialEq, Eq)]
pub enum Noun {
    Byte,
    Place,
    Transition,
    Line,
    Output,
}

impl fmt::Display for Noun {
    fn fmt<W: fmt::Write>(&self, f: &mut fmt::Formatter<W>) -> fmt::Result {
        f.write_str(match self {
            Noun::Byte => "byte",
            Noun::Place => "place",
            Noun::Transition => "transition",
            Noun::Line => "line",
            Noun::Output => "output",
        })
    }
}

// So many of a noun, as `1 place` or `3 places`.
#[derive(Clone, Copy, Debug, PartialEq, Eq)]
pub struct Counted(pub usize, pub Noun);

impl fmt::Display for Counted {
    fn fmt<W: fmt::Write>(&self, f: &mut fmt::Formatter<W>) -> fmt::Result {
        let Counted(count, noun) = *self;
        match count {
            1 => write!(f, "1 {noun}"),
            _ => write!(f, "{count} {noun}s"),
        }
    }
}

// Those of a noun whose bits are 1 in a word, as `place 3` or `places 0, 3 and 7`.
#[derive(Clone, Copy)]
pub(crate) struct Numbered(u64, Noun);

// Three, so that what is numbered tells its noun.
impl Numbered {
    // The places of a set.
    pub(crate) fn places(set: PlaceSet) -> Numbered
        ensures { (result.0 ≡ word_of set) × (result.1 ≡ Place) }
    {
        Numbered(set.into(), Noun::Place)
    }

    // The lines of a word.
    pub(crate) fn lines(word: u32) -> Numbered
        ensures { (result.0 ≡ word) × (result.1 ≡ Line) }
    {
        Numbered(word.into(), Noun::Line)
    }

    // The outputs of a word.
    pub(crate) fn outputs(word: u32) -> Numbered
        ensures { (result.0 ≡ word) × (result.1 ≡ Output) }
    {
        Numbered(word.into(), Noun::Output)
    }
}

impl fmt::Display for Numbered {
    fn fmt<W: fmt::Write>(&self, f: &mut fmt::Formatter<W>) -> fmt::Result {
        let Numbered(word, noun) = *self;
        match word.count_ones() {
            0 => return write!(f, "nothing"),
            1 => write!(f, "{noun} ")?,
            _ => write!(f, "{noun}s ")?,
        }
        let shifted = (0..u64::BITS).map(|n| (n, word >> n));
        for (n, rest) in shifted.filter(|(_, rest)| rest & 1 == 1) {
            let separator = match rest.count_ones() {
                1 => "",
                2 => " and ",
                _ => ", ",
            };
            write!(f, "{n}{separator}")?;
        }
        Ok(())
    }
}

// That those of a noun are, as `no place is`, `place 3 is` or `places 0 and 3 are`.
#[derive(Clone, Copy)]
pub(crate) struct Being(pub Numbered);

impl fmt::Display for Being {
    fn fmt<W: fmt::Write>(&self, f: &mut fmt::Formatter<W>) -> fmt::Result {
        let numbered = self.0;
        let Numbered(word, noun) = numbered;
        match word.count_ones() {
            0 => write!(f, "no {noun} is"),
            1 => write!(f, "{numbered} is"),
            _ => write!(f, "{numbered} are"),
        }
    }
}
