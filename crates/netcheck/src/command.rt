// What the arguments ask for.
use crate::failure::Failure;
use netfile::Strictness;
use std::alloc::Global;
use std::env::Args;

// The file that is read where none is named.
const DEFAULT_FILE: &str = "net.sip";

// How the program is called.
pub const HELP: &str = "\
netcheck - check a net file, and say what is in it

usage: netcheck [--strict] [FILE]

  FILE        the net file; net.sip in this folder where none is named
  --strict    refuse a net with a clash: two conflicting transitions that can
              both fire at some marking under some line word
  -h, --help  print this text

A missing file counts as empty. The status is 0 where the file is accepted,
and 1 where it is refused or cannot be read.
";

// What the program is to do.
#[derive(Drop)]
pub enum Command {
    Help,
    Check {
        name: String,
        strictness: Strictness,
    },
}

impl Command {
    // The command that the arguments say; the first of them is the program's own name.
    pub fn from_args(heap: Global, args: Args) -> Result<Command, Failure> {
        let mut name = None;
        let mut strictness = Strictness::Plain;
        for argument in args.skip(1) {
            match argument.as_str() {
                "-h" | "--help" => return Ok(Command::Help),
                "--strict" => strictness = Strictness::Strict,
                option if option.starts_with('-') => return Err(Failure::Misuse),
                _ if name.is_some() => return Err(Failure::Misuse),
                _ => name = Some(argument),
            }
        }
        let name = match name {
            Some(name) => name,
            None => String::from_str(heap, DEFAULT_FILE)?,
        };
        Ok(Command::Check { name, strictness })
    }
}
