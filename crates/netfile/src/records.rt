// Records: what one says in so many bytes, which rule it breaks, and how a table of them is put into a net.
ghost use Rattle.std.specs.Prelude.{◌≡◌, ℕ, ◌<◌, List, OnOk};
ghost use Rattle.bitset.specs.Lists.{first_of};
ghost use Rattle.netfile.specs.Steps.{with_records, records_wrong};
ghost use Rattle.netlayout.specs.declared.refusal.Refusal.{Refusal as AnyRefusal};
ghost use Rattle.nets.specs.Nets.{Net as AnyNet};
ghost use Rattle.std.specs.Result.{result_err};
ghost use Rattle.nets.specs.Stored.{net_of};

use netlayout::Refusal;
use nets::Net;

// A record of `N` bytes.
pub(crate) trait Record<const N: usize>: Copy {
    // What the bytes say.
    ghost said: { List ℕ → Self };

    // The rules that record `i` breaks, as a net tells it that has the records before it.
    ghost wrong: { AnyNet → Self → ℕ → List AnyRefusal };

    // The net with it as record `i`.
    ghost put_in: { AnyNet → Self → ℕ → AnyNet };

    fn from_bytes(bytes: [u8; N]) -> Self
        ensures { result ≡ said bytes.entry };

    // Puts it into the net as record `index`, which its bytes do not tell, or says which rule it breaks.
    fn put(self, net: &mut Net, index: usize) -> Result<(), Refusal>
        ensures refused { result_err result ≡ first_of (wrong (net_of net.old) self index) }
        ensures granted { OnOk result (net_of net.new ≡ put_in (net_of net.old) self index) };
}

// Puts the records of a table into the net, up to the first that breaks a rule.
pub(crate) fn put_records<R: Record<N>, const N: usize>(
    net: &mut Net,
    table: &[u8],
) -> Result<(), Refusal>
    requires some { 0 < N }
    requires few { N < 256 }
    ensures refused { result_err result ≡ first_of (records_wrong R.said R.put_in R.wrong N (net_of net.old) table.now) }
    ensures granted { OnOk result (net_of net.new ≡ with_records R.said R.put_in N (net_of net.old) table.now) }
{
    let (records, _) = table.as_chunks::<N>();
    for (index, bytes) in records.iter().enumerate() {
        R::from_bytes(*bytes).put(net, index)?;
    }
    Ok(())
}
