// Why a game is refused.
ghost use Rattle.std.specs.Prelude.{◌≡◌};
ghost use Rattle.tokengame.specs.Games.{game_code};

use nets::RefusalCode;

#[derive(Clone, Copy, Debug, PartialEq, Eq)]
pub enum GameRefusal {
    // The marking has a place that the net lacks.
    UnknownPlace,
    // The net lacks the transition.
    UnknownTransition,
    // The transition is not enabled; this is the lowest place that hinders it.
    NotEnabled(usize),
    // The transition is enabled, and its condition does not hold.
    ConditionFails,
}

impl From<GameRefusal> for RefusalCode {
    ghost from_gives = { λ refusal code. code ≡ game_code refusal };

    fn from(refusal: GameRefusal) -> RefusalCode {
        let (index, second) = match refusal {
            GameRefusal::UnknownPlace => (1, 0),
            GameRefusal::UnknownTransition => (2, 0),
            GameRefusal::NotEnabled(place) => (3, place),
            GameRefusal::ConditionFails => (4, 0),
        };
        RefusalCode {
            number: 17,
            table: 0,
            index,
            second,
        }
    }
}
