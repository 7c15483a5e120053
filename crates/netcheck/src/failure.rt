// Why the program ends with status 1.
use crate::command::HELP;
use std::alloc::AllocError;
use std::io;

// What went wrong. Texts and conversions are not derived: a refusal has no text here, and a want of memory is told as one of input and output.
#[derive(Debug, Drop)]
pub enum Failure {
    // The file breaks a rule, and standard output says which.
    Refused,
    // The arguments are none that the help names.
    Misuse,
    // The file is there and cannot be read.
    Unreadable { name: String, error: io::Error },
    // The arguments cannot be read, or the output not written.
    Io(io::Error),
}

impl Failure {
    // Says on standard error what went wrong; what cannot be written there is let go.
    pub fn report(&self, rt: &impl Eprint) {
        let _ = match self {
            Failure::Refused => Ok(()),
            Failure::Misuse => rt.eprint(HELP),
            Failure::Unreadable { name, error } => {
                eprintln!(rt; "netcheck: {name} cannot be read: {error}")
            }
            Failure::Io(error) => eprintln!(rt; "netcheck: {error}"),
        };
    }
}

// By this a `?` hands on an error of input or output.
impl From<io::Error> for Failure {
    fn from(error: io::Error) -> Failure {
        Failure::Io(error)
    }
}

// By this a `?` hands on a want of memory.
impl From<AllocError> for Failure {
    fn from(error: AllocError) -> Failure {
        Failure::Io(io::Error::from(error))
    }
}
