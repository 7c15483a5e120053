// Why a file is refused, in a sentence.
use crate::nouns::{Being, Counted, Noun, Numbered};
use netlayout::{LONGEST, PairFault, Refusal, SHORTEST, Table};
use nets::{Clash, Quantity};
use std::fmt;

// What a table may not start before.
#[derive(Clone, Copy)]
struct EarliestStart(Table);

impl fmt::Display for EarliestStart {
    fn fmt<W: fmt::Write>(&self, f: &mut fmt::Formatter<W>) -> fmt::Result {
        match self.0 {
            Table::Places => write!(f, "byte {SHORTEST}, inside the header"),
            Table::Arcs => write!(f, "the end of the {}", Table::Places),
            Table::Terms => write!(f, "the end of the {}", Table::Arcs),
        }
    }
}

// What is wrong with a pair of offset and length.
#[derive(Clone, Copy)]
struct PairText(Table, PairFault);

impl fmt::Display for PairText {
    fn fmt<W: fmt::Write>(&self, f: &mut fmt::Formatter<W>) -> fmt::Result {
        let PairText(table, fault) = *self;
        let number = table.number();
        write!(f, "Pair {number} is wrong: the {table} ")?;
        match fault {
            PairFault::StartsEarly => {
                let earliest = EarliestStart(table);
                write!(f, "starts before {earliest}.")
            }
            PairFault::PassesEnd => write!(f, "passes the end of the file."),
            PairFault::BrokenRecord => {
                let size = table.record_size();
                write!(f, "is not a whole number of records of {size} bytes.")
            }
        }
    }
}

// What is wrong with a count; the counts are the file's first bytes, in the order of the quantities.
#[derive(Clone, Copy)]
struct QuantityText(Quantity);

impl fmt::Display for QuantityText {
    fn fmt<W: fmt::Write>(&self, f: &mut fmt::Formatter<W>) -> fmt::Result {
        let quantity = self.0;
        let byte = quantity as usize;
        let most = quantity.most();
        write!(
            f,
            "The number of {quantity}, byte {byte}, is wrong: a net has 1 to {most}."
        )
    }
}

// Two transitions that clash, and where both can fire.
#[derive(Clone, Copy)]
struct ClashText(Clash);

impl fmt::Display for ClashText {
    fn fmt<W: fmt::Write>(&self, f: &mut fmt::Formatter<W>) -> fmt::Result {
        let Clash {
            lower,
            higher,
            marking,
            lines,
        } = self.0;
        let marked = Being(Numbered::places(marking));
        let high = Being(Numbered::lines(lines));
        write!(
            f,
            "Transitions {lower} and {higher} clash: they conflict, and both can fire where {marked} marked and {high} high."
        )
    }
}

// What is wrong with an arc whose transition and place an earlier arc has.
const REPEATED_ARC: &str = "an earlier arc joins the same transition and place";

// What is wrong with a term that wants one line both high and low.
const LINE_IN_BOTH_WORDS: &str = "a line is in both its high word and its low word";

// What is wrong with a term that is one too many.
const FIFTH_TERM: &str = "its transition already has four terms";

// That the places table is of another length than the number of places asks.
const PLACES_LENGTH: &str = "The places table does not have 5 bytes for each place.";

// That no token is in the net to begin with.
const NO_START_PLACE: &str = "No place is marked at the start.";

// A record of a table by its number, and what is wrong with it.
#[derive(Clone, Copy)]
struct RecordText<D>(Table, usize, D);

impl<D: fmt::Display> fmt::Display for RecordText<D> {
    fn fmt<W: fmt::Write>(&self, f: &mut fmt::Formatter<W>) -> fmt::Result {
        let RecordText(table, index, fault) = self;
        write!(f, "Record {index} of the {table} is wrong: {fault}.")
    }
}

// The sentence on a refusal of a file of so many bytes.
#[derive(Clone, Copy)]
pub struct Reason {
    pub refusal: Refusal,
    pub bytes: usize,
}

impl fmt::Display for Reason {
    fn fmt<W: fmt::Write>(&self, f: &mut fmt::Formatter<W>) -> fmt::Result {
        match self.refusal {
            Refusal::FileSize => {
                let size = Counted(self.bytes, Noun::Byte);
                write!(
                    f,
                    "The file has {size}; a net file has {SHORTEST} to {LONGEST} bytes."
                )
            }
            Refusal::Pair(table, fault) => f.write(PairText(table, fault)),
            Refusal::Count(quantity) => f.write(QuantityText(quantity)),
            Refusal::PlacesLength => f.write_str(PLACES_LENGTH),
            Refusal::Record(table, i, fault) => f.write(RecordText(table, i, fault)),
            Refusal::RepeatedArc(i) => f.write(RecordText(Table::Arcs, i, REPEATED_ARC)),
            Refusal::LineInBothWords(i) => f.write(RecordText(Table::Terms, i, LINE_IN_BOTH_WORDS)),
            Refusal::FifthTerm(i) => f.write(RecordText(Table::Terms, i, FIFTH_TERM)),
            Refusal::MovesNothing(t) => {
                write!(f, "Transition {t} neither consumes nor produces a place.")
            }
            Refusal::NoTerm(t) => write!(f, "Transition {t} has no term."),
            Refusal::NoStartPlace => f.write_str(NO_START_PLACE),
            Refusal::Clash(clash) => f.write(ClashText(clash)),
        }
    }
}
