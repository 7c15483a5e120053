// What the calls answer, as the tables write it.
use bitset::PlaceSet;
use netlayout::Refusal;
use nets::{Net, RefusalCode};
use nettext::Reason;
use std::fmt;
use tokengame::Outcome;

// The answer to a file or to a question about a net.
#[derive(Clone, Copy)]
pub enum Answer {
    Accepted,
    Refused(RefusalCode),
    Explained(Reason),
    Marking(PlaceSet),
    Round { outcome: Outcome, outputs: u32 },
}

impl From<&Result<Net, Refusal>> for Answer {
    fn from(net: &Result<Net, Refusal>) -> Answer {
        match net {
            Ok(_) => Answer::Accepted,
            Err(refusal) => Answer::Refused(RefusalCode::from(*refusal)),
        }
    }
}

impl fmt::Display for Answer {
    fn fmt<W: fmt::Write>(&self, f: &mut fmt::Formatter<W>) -> fmt::Result {
        match *self {
            Answer::Accepted => f.write_str("accepted"),
            Answer::Refused(code) => f.write(code),
            Answer::Explained(reason) => f.write(reason),
            Answer::Marking(marking) => {
                let word = u64::from(marking);
                write!(f, "{word:x}")
            }
            Answer::Round { outcome, outputs } => {
                let report = u64::from(outcome.report);
                let end = u64::from(outcome.marking);
                write!(f, "{report:x} {end:x} {outputs:x}")
            }
        }
    }
}
