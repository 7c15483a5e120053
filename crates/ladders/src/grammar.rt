// Which steps are a ladder: whole rungs, at most 2,048 steps.
ghost use Rattle.std.specs.Prelude.{◌≡◌, ◌++◌, Some, codes};
ghost use Rattle.std.specs.Fmt.{decimal};
ghost use Rattle.ladders.specs.Grammar.{coil_fits, position_after, next, next_at, ended, grammar};

use crate::coil::{COILS, START};
use crate::step::{Role, Step};
use std::error::Error;
use std::fmt;

// The most steps of a ladder.
pub const MAX_STEPS: usize = 2048;

// Where steps fail to be a ladder: at the first that cannot stand, or after the last where they end in mid-rung.
#[derive(Clone, Copy, Debug, PartialEq, Eq)]
pub struct Fault {
    pub index: usize,
}

impl fmt::Display for Fault {
    ghost output = { λ fault. Some (codes "no ladder from step " ++ decimal fault.index ++ codes " on") };

    fn fmt<W: fmt::Write>(&self, f: &mut fmt::Formatter<W>) -> fmt::Result {
        write!(f, "no ladder from step {} on", self.index)
    }
}

impl Error for Fault {}

// Where in a rung a step stands: first, after what the rung has in series, in a group, or after a group.
#[derive(Clone, Copy)]
pub enum Position {
    First,
    Series,
    Group,
    Groups,
}

// Whether a step of this role may name the coil of this number.
fn coil_fits(role: Role, coil: u16) -> bool
    ensures { result ≡ coil_fits role coil }
{
    match role {
        Role::Closes => coil == 0,
        Role::Stores => (START..COILS).contains(&coil),
        _ => coil < COILS,
    }
}

// Where the step after one of this role stands, if such a step may stand at `position`.
fn position_after(position: Position, role: Role) -> Option<Position>
    ensures { result ≡ position_after position role }
{
    match (position, role) {
        (Position::First, Role::Loads) => Some(Position::Series),
        (Position::Series, Role::Joins) => Some(Position::Series),
        (Position::Group, Role::Joins) => Some(Position::Group),
        (Position::Group, Role::Closes) => Some(Position::Groups),
        (Position::Series | Position::Groups, Role::Opens) => Some(Position::Group),
        (Position::Series | Position::Groups, Role::Stores) => Some(Position::First),
        _ => None,
    }
}

// Where the step after this one stands, if this one may stand at `position`.
fn next_position(position: Position, step: Step) -> Option<Position>
    ensures { result ≡ next position step }
{
    let role = step.op.role();
    if coil_fits(role, step.coil) {
        position_after(position, role)
    } else {
        None
    }
}

// The same for the step of this index, which has to be below the most.
fn next_at(index: usize, position: Position, step: Step) -> Option<Position>
    ensures { result ≡ next_at index position step }
{
    if index < MAX_STEPS {
        next_position(position, step)
    } else {
        None
    }
}

// The answer where the steps end, `count` of them, before a step at `position`.
fn at_end(position: Position, count: usize) -> Result<(), Fault>
    ensures { result ≡ ended position count }
{
    match position {
        Position::First => Ok(()),
        _ => Err(Fault { index: count }),
    }
}

// `Ok` of a ladder, else where the steps fail to be one.
fn first_fault(steps: &[Step]) -> Result<(), Fault>
    ensures { result ≡ grammar steps.now }
{
    // No `try_fold`: it reads no plainer than a `for` with `?`, and the proof of its answer stayed open.
    let mut position = Position::First;
    for (index, step) in steps.iter().enumerate() {
        position = next_at(index, position, *step).ok_or(Fault { index })?;
    }
    at_end(position, steps.len())
}
