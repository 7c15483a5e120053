// Any kind of level that a coil may have. A level admits plain low, plain high or both.
ghost use Rattle.std.specs.Prelude.{◌≡◌, Bool};
ghost use Rattle.levels.specs.Levels.{Operations, LevelLaws, the_only};

pub trait Level: Copy {
    // Whether a level admits a plain level.
    ghost admits: { Self → Bool → Bool };

    // What low, high, both, either and inverse are.
    ghost operations: { Operations Self };

    fn low() -> Self
        ensures { result ≡ operations.low };

    fn high() -> Self
        ensures { result ≡ operations.high };

    fn both(self, other: Self) -> Self
        ensures { result ≡ operations.both self other };

    fn either(self, other: Self) -> Self
        ensures { result ≡ operations.either self other };

    fn inverse(self) -> Self
        ensures { result ≡ operations.inverse self };

    // The plain level that this one admits, if it admits just one.
    // A method and no `TryFrom`, for which each function over a `Level` would need a second bound, on `bool`.
    fn plain(self) -> Option<bool>
        ensures { result ≡ the_only (admits self) };

    // Each operation admits exactly the plain results over what its operands admit; no level admits neither.
    ghost lawful: { LevelLaws admits operations };
}
