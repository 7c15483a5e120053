// Where the tables of a net file lie.
ghost use Rattle.std.specs.Prelude.{◌≡◌, ◌<◌, ◌≤◌, ◌++◌, IfOk};
ghost use Rattle.bitset.specs.Lists.{first_of};
ghost use Rattle.netlayout.specs.declared.table.Table.TheVariants.{Places, Arcs, Terms};
ghost use Rattle.netlayout.specs.Layouts.{byte, two_bytes, table_in, table_end, earliest as earliest_start, places_said, transitions_said, lines_said, outputs_said};
ghost use Rattle.netlayout.specs.Rules.{size_broken, pair_broken, pairs_broken, counts_broken};
ghost use Rattle.std.specs.Result.{result_err};

use crate::refusal::{PairFault, Refusal};
use crate::table::Table;
use nets::Counts;

// The fewest bytes that a net file has: those before the first table.
pub const SHORTEST: usize = 16;

// The most bytes that a net file has.
pub const LONGEST: usize = 16_384;

// The bytes of one table, and where in the file they end.
#[derive(Clone, Copy)]
struct Part<'a> {
    bytes: &'a [u8],
    end: usize,
}

// The bytes of the three tables.
#[derive(Clone, Copy, Debug, PartialEq, Eq)]
pub struct Tables<'a> {
    pub places: &'a [u8],
    pub arcs: &'a [u8],
    pub terms: &'a [u8],
}

// Byte `at` of the file, and 0 past its end.
fn byte_at(file: &[u8], at: usize) -> usize
    ensures { (result ≡ byte file.now at) × (result < 256) }
{
    file.get(at).map_or(0, |value| usize::from(*value))
}

// The number in the two bytes from `at`, the higher byte first.
fn half_at(file: &[u8], at: usize) -> usize
    requires { at ≤ 14 }
    ensures { (result ≡ two_bytes file.now at) × (result < 65536) }
{
    byte_at(file, at) * 256 + byte_at(file, at + 1)
}

// The part of the file that the pair of `table` tells, if it does not start before `earliest`.
fn table_part<'a>(file: &'a [u8], table: Table, earliest: usize) -> Result<Part<'a>, Refusal>
    requires { earliest ≡ earliest_start file.now table }
    ensures refused { result_err result ≡ first_of (pair_broken file.now table) }
    ensures granted { IfOk result (λ p. (p.bytes.now ≡ table_in file.now table) × (p.end ≡ table_end file.now table)) }
{
    let place = table.pair_place();
    let start = half_at(file, place);
    let length = half_at(file, place + 2);
    let end = start + length;
    let Some(_) = start.checked_sub(earliest) else {
        return Err(Refusal::Pair(table, PairFault::StartsEarly));
    };
    let Some(bytes) = file.get(start..end) else {
        return Err(Refusal::Pair(table, PairFault::PassesEnd));
    };
    let 0 = length % table.record_size() else {
        return Err(Refusal::Pair(table, PairFault::BrokenRecord));
    };
    Ok(Part { bytes, end })
}

// The three tables, or what is wrong with the file's size or with the first pair that is wrong.
pub fn tables_in(file: &[u8]) -> Result<Tables<'_>, Refusal>
    ensures refused { result_err result ≡ first_of (size_broken file.now ++ pairs_broken file.now) }
    ensures granted { IfOk result (λ t. (t.places.now ≡ table_in file.now Places) × (t.arcs.now ≡ table_in file.now Arcs) × (t.terms.now ≡ table_in file.now Terms)) }
{
    if !(SHORTEST..=LONGEST).contains(&file.len()) {
        return Err(Refusal::FileSize);
    }
    let places = table_part(file, Table::Places, SHORTEST)?;
    let arcs = table_part(file, Table::Arcs, places.end)?;
    let terms = table_part(file, Table::Terms, arcs.end)?;
    Ok(Tables {
        places: places.bytes,
        arcs: arcs.bytes,
        terms: terms.bytes,
    })
}

// The counts in the file's first bytes, or the first that is out of range, or that the places table is of another length.
pub fn counts_in(file: &[u8]) -> Result<Counts, Refusal>
    ensures refused { result_err result ≡ first_of (counts_broken file.now) }
    ensures granted { IfOk result (λ c. (c.places ≡ places_said file.now) × (c.transitions ≡ transitions_said file.now) × (c.lines ≡ lines_said file.now) × (c.outputs ≡ outputs_said file.now)) }
{
    let counts = Counts::new(
        byte_at(file, 0),
        byte_at(file, 1),
        byte_at(file, 2),
        byte_at(file, 3),
    )?;
    let length = half_at(file, Table::Places.pair_place() + 2);
    if length != Table::Places.record_size() * counts.places {
        return Err(Refusal::PlacesLength);
    }
    Ok(counts)
}
