// The check of a net file, plain or strict.
ghost use Rattle.std.specs.Prelude.{◌≡◌, true, is_ok, IfOk};
ghost use Rattle.bitset.specs.Lists.{first_of, none_in};
ghost use Rattle.netfile.specs.Files.{net_in};
ghost use Rattle.netfile.specs.Rules.{broken};
ghost use Rattle.netfile.specs.Says.{Says};
ghost use Rattle.netfile.specs.Strictness.{clash_broken, broken_under, ClashOrNone};
ghost use Rattle.netfile.specs.declared.strictness.Strictness.TheVariants.{Strict};
ghost use Rattle.nets.specs.Clashes.{first_clash as first_clash_of};
ghost use Rattle.nets.specs.WellFormed.{WellFormed};
ghost use Rattle.std.specs.Result.{result_err};
ghost use Rattle.nets.specs.Stored.{net_of};

use crate::reader::read;
use crate::strictness::Strictness;
use netlayout::Refusal;
use nets::Net;
use tokengame::first_clash;

// The net, unless it has a clash.
fn without_clash(net: Net) -> Result<Net, Refusal>
    ensures refused { result_err result ≡ first_of (clash_broken (first_clash_of (net_of net))) }
    ensures granted { IfOk result (λ n. net_of n ≡ net_of net) }
    ensures law { ClashOrNone (net_of net) (result_err result) }
{
    match first_clash(&net) {
        Some(clash) => Err(Refusal::Clash(clash)),
        None => Ok(net),
    }
}

// The net that a file says, or the first rule that the file breaks.
pub fn check(file: &[u8], strictness: Strictness) -> Result<Net, Refusal>
    ensures refused { result_err result ≡ first_of (broken_under strictness file.now) }
    ensures accepted { is_ok result ≡ none_in (broken_under strictness file.now) }
    ensures granted { IfOk result (λ n. net_of n ≡ net_in file.now) }
    ensures said { IfOk result (λ n. Says file.now (net_of n)) }
    ensures lawful { IfOk result (λ n. WellFormed (net_of n)) }
    ensures strict { strictness ≡ Strict → none_in (broken file.now) ≡ true → WellFormed (net_in file.now) × ClashOrNone (net_in file.now) (result_err result) }
{
    let net = read(file)?;
    match strictness {
        Strictness::Plain => Ok(net),
        Strictness::Strict => without_clash(net),
    }
}
