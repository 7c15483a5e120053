// Laws of the definitions that the contracts of this crate cite, over any kind of level; the contract is the theorem.
ghost use Rattle.std.specs.Prelude.{◌≡◌, true};
ghost use Rattle.ladders.specs.Coils.{CoilNames};
ghost use Rattle.ladders.specs.Ladders.{GrammarTells};
ghost use Rattle.ladders.specs.Rungs.{RungsInTurn};

use levels::Level;

pub fn ladder_laws_hold<L: Level>() -> bool
    ensures coils { CoilNames }
    ensures grammar { GrammarTells }
    ensures rungs { RungsInTurn L.operations }
    ensures answer { result ≡ true }
{
    true
}
