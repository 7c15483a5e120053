// What an arc does between its transition and its place.
ghost use Rattle.std.specs.Prelude.{◌++◌, Some, codes, decimal};
ghost use Rattle.nets.specs.Kinds.{Decodes};

use std::error::Error;
use std::fmt;

#[derive(Clone, Copy, Debug, PartialEq, Eq)]
pub enum ArcKind {
    Consumes,
    Produces,
    Tests,
    Inhibits,
}

// A number that is no kind's.
#[derive(Clone, Copy, Debug, PartialEq, Eq)]
pub struct UnknownKind(pub u8);

impl fmt::Display for UnknownKind {
    ghost output = { λ e. Some (codes "no kind of arc has number " ++ decimal e.0) };

    fn fmt<W: fmt::Write>(&self, f: &mut fmt::Formatter<W>) -> fmt::Result {
        let UnknownKind(number) = *self;
        write!(f, "no kind of arc has number {number}")
    }
}

impl Error for UnknownKind {}

// The kind that a file writes as this number.
impl TryFrom<u8> for ArcKind {
    type Error = UnknownKind;

    ghost try_from_gives = { Decodes };

    fn try_from(number: u8) -> Result<ArcKind, UnknownKind> {
        match number {
            0 => Ok(ArcKind::Consumes),
            1 => Ok(ArcKind::Produces),
            2 => Ok(ArcKind::Tests),
            3 => Ok(ArcKind::Inhibits),
            _ => Err(UnknownKind(number)),
        }
    }
}
