// The coils by name, and their numbers: lines, the start coil, places, transitions, outputs, one after the other.
ghost use Rattle.std.specs.Prelude.{◌≡◌, Some, codes};
ghost use Rattle.std.specs.Option.{ok_or};
ghost use Rattle.ladders.specs.Coils.{coil_numbered, number_of, no_such_coil};

use std::error::Error;
use std::fmt;

const LINES: u16 = 32;

const PLACES: u16 = 64;

const TRANSITIONS: u16 = 64;

const OUTPUTS: u16 = 32;

// The number of the start coil, which is also the first that a step may store into.
pub const START: u16 = LINES;

// The number of the first place's coil.
pub const FIRST_PLACE: u16 = START + 1;

// The number of the first transition's coil.
pub const FIRST_TRANSITION: u16 = FIRST_PLACE + PLACES;

// The number of the first output's coil.
pub const FIRST_OUTPUT: u16 = FIRST_TRANSITION + TRANSITIONS;

// How many coils there are.
pub const COILS: u16 = FIRST_OUTPUT + OUTPUTS;

// A coil: that of a line, the start coil, that of a place, of a transition or of an output.
#[derive(Clone, Copy, Debug, PartialEq, Eq)]
pub enum Coil {
    Line(u16),
    Start,
    Place(u16),
    Transition(u16),
    Output(u16),
}

// There is no such coil: the number is that of none, or the board has no such line, place, transition or output.
#[derive(Clone, Copy, Debug, PartialEq, Eq)]
pub struct NoSuchCoil;

impl fmt::Display for NoSuchCoil {
    ghost output = { λ _. Some (codes "there is no such coil") };

    fn fmt<W: fmt::Write>(&self, f: &mut fmt::Formatter<W>) -> fmt::Result {
        f.write_str("there is no such coil")
    }
}

impl Error for NoSuchCoil {}

// The coil of a number.
impl TryFrom<u16> for Coil {
    type Error = NoSuchCoil;

    ghost try_from_gives = { λ number r. r ≡ ok_or (coil_numbered number) no_such_coil };

    fn try_from(number: u16) -> Result<Coil, NoSuchCoil> {
        // An arm for each kind of coil: one function for all would take the ends of the range and the constructor.
        match number {
            ..START => Ok(Coil::Line(number)),
            START => Ok(Coil::Start),
            FIRST_PLACE..FIRST_TRANSITION => Ok(Coil::Place(number - FIRST_PLACE)),
            FIRST_TRANSITION..FIRST_OUTPUT => Ok(Coil::Transition(number - FIRST_TRANSITION)),
            FIRST_OUTPUT..COILS => Ok(Coil::Output(number - FIRST_OUTPUT)),
            _ => Err(NoSuchCoil),
        }
    }
}

// The number of a coil; an arm for each kind, as for the way back.
impl TryFrom<Coil> for u16 {
    type Error = NoSuchCoil;

    ghost try_from_gives = { λ coil r. r ≡ ok_or (number_of coil) no_such_coil };

    fn try_from(coil: Coil) -> Result<u16, NoSuchCoil> {
        match coil {
            Coil::Line(n) if n < LINES => Ok(n),
            Coil::Start => Ok(START),
            Coil::Place(n) if n < PLACES => Ok(FIRST_PLACE + n),
            Coil::Transition(n) if n < TRANSITIONS => Ok(FIRST_TRANSITION + n),
            Coil::Output(n) if n < OUTPUTS => Ok(FIRST_OUTPUT + n),
            _ => Err(NoSuchCoil),
        }
    }
}
