// What flows along a rung: its result so far, and that of the group that is open in it.
ghost use Rattle.std.specs.Prelude.{◌≡◌};
ghost use Rattle.ladders.specs.Flows.{no_flow, joined_flow, closed_flow, flowing};

use crate::step::{Op, Role};
use levels::Level;

#[derive(Clone, Copy)]
pub(crate) struct Flow<L> {
    pub(crate) result: L,
    pub(crate) group: Option<L>,
}

impl<L: Level> Flow<L> {
    // Before the first rung.
    pub(crate) fn none() -> Flow<L>
        ensures { result ≡ no_flow L.operations }
    {
        Flow {
            result: L::low(),
            group: None,
        }
    }

    // `x` joined to the open group, or to the result where none is open.
    fn join(self, x: L) -> Flow<L>
        ensures { result ≡ joined_flow L.operations x self }
    {
        match self.group {
            Some(group) => Flow {
                group: Some(group.both(x)),
                ..self
            },
            None => Flow {
                result: self.result.both(x),
                ..self
            },
        }
    }

    // The group is closed: either of result and group.
    fn close(self) -> Flow<L>
        ensures { result ≡ closed_flow L.operations self }
    {
        match self.group {
            Some(group) => Flow {
                result: self.result.either(group),
                group: None,
            },
            None => self,
        }
    }

    // The flow after an operation on a coil at level `x`.
    pub(crate) fn after(self, op: Op, x: L) -> Flow<L>
        ensures { result ≡ flowing L.operations op x self }
    {
        let level = if op.inverts() { x.inverse() } else { x };
        // A `match`: in a table of closures each role would still be a line, and one could be left out.
        match op.role() {
            Role::Loads => Flow {
                result: level,
                group: None,
            },
            Role::Joins => self.join(level),
            Role::Opens => Flow {
                group: Some(level),
                ..self
            },
            Role::Closes => self.close(),
            Role::Stores => self,
        }
    }
}
