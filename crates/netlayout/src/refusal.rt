// Why a net file is refused.
ghost use Rattle.std.specs.Prelude.{◌≡◌, Some};
ghost use Rattle.netlayout.specs.Names.{fault_text};
ghost use Rattle.netlayout.specs.Codes.{code_of};
ghost use Rattle.netlayout.specs.declared.refusal.Refusal.TheVariants.{Count};

use crate::table::Table;
use nets::{Clash, Quantity, RefusalCode};
use std::fmt;

// What is wrong with the pair of offset and length of a table.
#[derive(Clone, Copy, Debug, PartialEq, Eq)]
pub enum PairFault {
    // The table starts before byte 16, or before the end of the table before it.
    StartsEarly,
    // The table passes the file's end.
    PassesEnd,
    // The table's length is no whole number of records.
    BrokenRecord,
}

// What a record has that the net lacks, or that is out of range.
#[derive(Clone, Copy, Debug, PartialEq, Eq)]
pub enum RecordFault {
    StartMark,
    Output,
    Transition,
    Place,
    Kind,
    HighLine,
    LowLine,
}

impl fmt::Display for RecordFault {
    ghost output = { λ fault. Some (fault_text fault) };

    fn fmt<W: fmt::Write>(&self, f: &mut fmt::Formatter<W>) -> fmt::Result {
        f.write_str(match self {
            RecordFault::StartMark => "its start mark is neither 0 nor 1",
            RecordFault::Output => "its raise word has an output that the net lacks",
            RecordFault::Transition => "its transition is one that the net lacks",
            RecordFault::Place => "its place is one that the net lacks",
            RecordFault::Kind => "its kind is not 0, 1, 2 or 3",
            RecordFault::HighLine => "its high word has a line that the net lacks",
            RecordFault::LowLine => "its low word has a line that the net lacks",
        })
    }
}

// The rule that a file breaks; a number is that of the record or of the transition. A clash is one for a strict check only.
#[derive(Clone, Copy, Debug, PartialEq, Eq)]
pub enum Refusal {
    FileSize,
    Pair(Table, PairFault),
    Count(Quantity),
    PlacesLength,
    Record(Table, usize, RecordFault),
    RepeatedArc(usize),
    LineInBothWords(usize),
    FifthTerm(usize),
    MovesNothing(usize),
    NoTerm(usize),
    NoStartPlace,
    Clash(Clash),
}

impl From<Quantity> for Refusal {
    ghost from_gives = { λ q r. r ≡ Count q };

    fn from(quantity: Quantity) -> Refusal {
        Refusal::Count(quantity)
    }
}

// The table number of a refusal of a transition, which is in none of the three tables.
const TRANSITIONS: usize = 4;

impl From<Refusal> for RefusalCode {
    ghost from_gives = { λ refusal code. code ≡ code_of refusal };

    fn from(refusal: Refusal) -> RefusalCode {
        let (number, table, index, second) = match refusal {
            Refusal::FileSize => (1, 0, 0, 0),
            Refusal::Pair(table, _) => (1, 0, table.number(), 0),
            Refusal::Count(quantity) => (2, 0, quantity as usize + 1, 0),
            Refusal::PlacesLength => (2, 0, 5, 0),
            Refusal::Record(table, index, _) => (3, table.number(), index, 0),
            Refusal::RepeatedArc(index) => (4, Table::Arcs.number(), index, 0),
            Refusal::LineInBothWords(index) => (5, Table::Terms.number(), index, 0),
            Refusal::FifthTerm(index) => (6, Table::Terms.number(), index, 0),
            Refusal::MovesNothing(transition) => (7, TRANSITIONS, transition, 0),
            Refusal::NoTerm(transition) => (8, TRANSITIONS, transition, 0),
            Refusal::NoStartPlace => (9, 0, 0, 0),
            Refusal::Clash(clash) => (10, 0, clash.lower, clash.higher),
        };
        RefusalCode {
            number,
            table,
            index,
            second,
        }
    }
}
