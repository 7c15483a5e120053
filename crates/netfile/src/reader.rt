// The reader of net files.
ghost use Rattle.std.specs.Prelude.{◌≡◌, is_ok, IfOk};
ghost use Rattle.netfile.specs.Files.{net_in};
ghost use Rattle.netfile.specs.Rules.{broken};
ghost use Rattle.netfile.specs.Says.{Says};
ghost use Rattle.netfile.specs.Steps.{filled_net, filling_wrong};
ghost use Rattle.bitset.specs.Lists.{first_of, none_in};
ghost use Rattle.nets.specs.Stored.{blank_net, net_of};
ghost use Rattle.nets.specs.WellFormed.{WellFormed};
ghost use Rattle.std.specs.Result.{result_err};

use crate::arcs::ArcRecord;
use crate::places::PlaceRecord;
use crate::records::put_records;
use crate::terms::TermRecord;
use crate::transitions::check_net;
use netlayout::{Refusal, Tables, counts_in, tables_in};
use nets::{Counts, Net};

// The net of these counts that the tables say, or the first rule that they break.
fn filled(counts: Counts, tables: Tables) -> Result<Net, Refusal>
    ensures refused { result_err result ≡ first_of (filling_wrong (blank_net counts) tables.entry.places.now tables.entry.arcs.now tables.entry.terms.now) }
    ensures granted { IfOk result (λ n. net_of n ≡ filled_net (blank_net counts) tables.entry.places.now tables.entry.arcs.now tables.entry.terms.now) }
{
    let mut net = Net::blank(counts);
    put_records::<PlaceRecord, 5>(&mut net, tables.places)?;
    put_records::<ArcRecord, 3>(&mut net, tables.arcs)?;
    put_records::<TermRecord, 9>(&mut net, tables.terms)?;
    check_net(&net)?;
    Ok(net)
}

// The net that a file says, or the first rule that the file breaks.
pub fn read(file: &[u8]) -> Result<Net, Refusal>
    ensures refused { result_err result ≡ first_of (broken file.now) }
    ensures accepted { is_ok result ≡ none_in (broken file.now) }
    ensures granted { IfOk result (λ n. net_of n ≡ net_in file.now) }
    ensures said { IfOk result (λ n. Says file.now (net_of n)) }
    ensures lawful { IfOk result (λ n. WellFormed (net_of n)) }
{
    let tables = tables_in(file)?;
    let counts = counts_in(file)?;
    filled(counts, tables)
}
