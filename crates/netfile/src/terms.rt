// The terms table.
ghost use Rattle.std.specs.Prelude.{◌≡◌, ◌≤◌};
ghost use Rattle.bitset.specs.Lists.{first_of};
ghost use Rattle.netfile.specs.Files.{term_said};
ghost use Rattle.netfile.specs.Rules.{words_broken};
ghost use Rattle.netfile.specs.Steps.{term_wrong, term_put};
ghost use Rattle.std.specs.Result.{result_err};

use crate::records::Record;
use bitset::Word;
use netlayout::{RecordFault, Refusal, Table};
use nets::{Net, Term, Terms};

// A term as the file has it, and its transition.
#[derive(Clone, Copy)]
pub struct TermRecord {
    pub transition: usize,
    pub term: Term,
}

// What is wrong with the words of term `index`, in a net of so many lines.
fn check_words(term: Term, lines: usize, index: usize) -> Result<(), Refusal>
    requires { lines ≤ 32 }
    ensures { result_err result ≡ first_of (words_broken lines term index) }
{
    let all = u32::below(lines);
    if !term.high.within(all) {
        return Err(Refusal::Record(Table::Terms, index, RecordFault::HighLine));
    }
    if !term.low.within(all) {
        return Err(Refusal::Record(Table::Terms, index, RecordFault::LowLine));
    }
    if !term.high.apart(term.low) {
        return Err(Refusal::LineInBothWords(index));
    }
    Ok(())
}

impl Record<9> for TermRecord {
    ghost said = { term_said };

    ghost wrong = { term_wrong };

    ghost put_in = { term_put };

    fn from_bytes(bytes: [u8; 9]) -> TermRecord
        ensures { result ≡ term_said bytes }
    {
        let [transition, a, b, c, d, e, f, g, h] = bytes;
        TermRecord {
            transition: usize::from(transition),
            term: Term {
                high: u32::from_be_bytes([a, b, c, d]),
                low: u32::from_be_bytes([e, f, g, h]),
            },
        }
    }

    fn put(self, net: &mut Net, index: usize) -> Result<(), Refusal> {
        let Some(transition) = net.transition(self.transition) else {
            return Err(Refusal::Record(Table::Terms, index, RecordFault::Transition));
        };
        check_words(self.term, net.counts().lines, index)?;
        if transition.terms.len() >= Terms::MOST {
            return Err(Refusal::FifthTerm(index));
        }
        net.add_term(self.transition, self.term);
        Ok(())
    }
}
