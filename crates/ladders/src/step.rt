// The steps of a ladder: an operation, and the number of the coil that it names.
ghost use Rattle.std.specs.Prelude.{◌≡◌};
ghost use Rattle.ladders.specs.Steps.{role_of, inverts};

// The operations. `Or` and `Orn` open a group, which `Close` closes.
#[derive(Clone, Copy, Debug, PartialEq, Eq)]
pub enum Op {
    Ld,
    Ldn,
    And,
    Andn,
    Or,
    Orn,
    Close,
    St,
    S,
    R,
}

// What an operation does in a rung.
#[derive(Clone, Copy, Debug, PartialEq, Eq)]
pub enum Role {
    Loads,
    Joins,
    Opens,
    Closes,
    Stores,
}

#[derive(Clone, Copy, Debug, PartialEq, Eq)]
pub struct Step {
    pub op: Op,
    // A number and no `Coil`: steps come untested, and may name a coil that does not exist.
    pub coil: u16,
}

impl Op {
    // What the operation does in a rung.
    pub fn role(self) -> Role
        ensures { result ≡ role_of self }
    {
        match self {
            Op::Ld | Op::Ldn => Role::Loads,
            Op::And | Op::Andn => Role::Joins,
            Op::Or | Op::Orn => Role::Opens,
            Op::Close => Role::Closes,
            Op::St | Op::S | Op::R => Role::Stores,
        }
    }

    // Whether the operation takes the inverse of its coil.
    pub(crate) fn inverts(self) -> bool
        ensures { result ≡ inverts self }
    {
        matches!(self, Op::Ldn | Op::Andn | Op::Orn)
    }
}
