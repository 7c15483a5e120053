// Paragraphs of the tables that say nothing.
use std::io;
use std::num::ParseIntError;

// A paragraph, or a part of it, that no word of the tables explains.
#[derive(Clone, Copy, Debug, PartialEq, Eq)]
pub struct WrongParagraph;

// By this a `?` hands on what is no number.
impl From<ParseIntError> for WrongParagraph {
    fn from(_error: ParseIntError) -> WrongParagraph {
        WrongParagraph
    }
}

// By this a `?` ends the trial.
impl From<WrongParagraph> for io::Error {
    fn from(_error: WrongParagraph) -> io::Error {
        io::ErrorKind::InvalidData.into()
    }
}
