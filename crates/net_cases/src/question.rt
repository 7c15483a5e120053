// What the tables ask about a net.
use crate::answer::Answer;
use crate::wrong_paragraph::WrongParagraph;
use bitset::PlaceSet;
use netfile::Strictness;
use nets::{Net, RefusalCode};
use nettext::Reason;
use std::str::{FromStr, SplitWhitespace};

// The words of a question, one after the other.
#[derive(Drop)]
struct Words<'a>(SplitWhitespace<'a>);

impl<'a> Words<'a> {
    // The next word.
    fn next(&mut self) -> Result<&'a str, WrongParagraph> {
        self.0.next().ok_or(WrongParagraph)
    }

    // The next word as a marking, in hexadecimal.
    fn marking(&mut self) -> Result<PlaceSet, WrongParagraph> {
        let word = u64::from_str_radix(self.next()?, 16)?;
        Ok(PlaceSet::from(word))
    }

    // The next word as a line word, in hexadecimal.
    fn lines(&mut self) -> Result<u32, WrongParagraph> {
        Ok(u32::from_str_radix(self.next()?, 16)?)
    }

    // The next word as the number of a transition.
    fn number(&mut self) -> Result<usize, WrongParagraph> {
        Ok(self.next()?.parse()?)
    }
}

// A question about the net of a file.
#[derive(Clone, Copy)]
pub enum Question {
    // Whether a check accepts it.
    Check(Strictness),
    // Why a strict check refuses it.
    Reason,
    // The marking after a game.
    Play {
        marking: PlaceSet,
        lines: u32,
        number: usize,
    },
    // What a round reports, where it ends, and the outputs there.
    Round {
        marking: PlaceSet,
        lines: u32,
    },
}

impl FromStr for Question {
    type Err = WrongParagraph;

    fn from_str(text: &str) -> Result<Question, WrongParagraph> {
        let mut words = Words(text.split_whitespace());
        match words.next()? {
            "plain" => Ok(Question::Check(Strictness::Plain)),
            "strict" => Ok(Question::Check(Strictness::Strict)),
            "reason" => Ok(Question::Reason),
            "play" => Ok(Question::Play {
                marking: words.marking()?,
                lines: words.lines()?,
                number: words.number()?,
            }),
            "round" => Ok(Question::Round {
                marking: words.marking()?,
                lines: words.lines()?,
            }),
            _ => Err(WrongParagraph),
        }
    }
}

// The net of a file that is asked about.
fn net_in(file: &[u8]) -> Result<Net, WrongParagraph> {
    netfile::read(file).map_err(|_| WrongParagraph)
}

impl Question {
    // The answer of the call that tells it; a `match`, since each question asks a call of another form.
    pub fn answer(self, file: &[u8]) -> Result<Answer, WrongParagraph> {
        match self {
            Question::Check(strictness) => Ok(Answer::from(&netfile::check(file, strictness))),
            Question::Reason => match netfile::check(file, Strictness::Strict) {
                Ok(_) => Ok(Answer::Accepted),
                Err(refusal) => {
                    let bytes = file.len();
                    Ok(Answer::Explained(Reason { refusal, bytes }))
                }
            },
            Question::Play {
                marking,
                lines,
                number,
            } => match tokengame::play(&net_in(file)?, marking, lines, number) {
                Ok(after) => Ok(Answer::Marking(after)),
                Err(refusal) => Ok(Answer::Refused(RefusalCode::from(refusal))),
            },
            Question::Round { marking, lines } => {
                let net = net_in(file)?;
                let outcome = tokengame::round(&net, marking, lines);
                let outputs = tokengame::outputs(&net, outcome.marking);
                Ok(Answer::Round { outcome, outputs })
            }
        }
    }
}
