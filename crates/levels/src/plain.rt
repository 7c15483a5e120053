// Plain levels: low is `false`, high is `true`.
ghost use Rattle.levels.specs.Levels.{same, plain_operations, plain_laws};

use crate::level::Level;

impl Level for bool {
    ghost admits = { same };

    ghost operations = { plain_operations };

    ghost lawful = { plain_laws };

    fn low() -> bool {
        false
    }

    fn high() -> bool {
        true
    }

    fn both(self, other: bool) -> bool {
        self & other
    }

    fn either(self, other: bool) -> bool {
        self | other
    }

    fn inverse(self) -> bool {
        !self
    }

    fn plain(self) -> Option<bool> {
        Some(self)
    }
}
