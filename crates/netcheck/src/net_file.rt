// A net file as it was read, and what is found in it.
use crate::failure::Failure;
use netfile::Strictness;
use netlayout::Refusal;
use nets::{Net, RefusalCode};
use nettext::{Counted, NetText, Noun, Reason};
use std::fs::Files;
use std::{fmt, fs, io};

// A net file by its name, and its bytes.
#[derive(Debug, Drop)]
pub struct NetFile {
    name: String,
    bytes: Vec<u8>,
}

// Its name and its size, as `net.sip: 76 bytes`.
impl fmt::Display for NetFile {
    fn fmt<W: fmt::Write>(&self, f: &mut fmt::Formatter<W>) -> fmt::Result {
        let name = self.name.as_str();
        let size = Counted(self.bytes.len(), Noun::Byte);
        write!(f, "{name}: {size}")
    }
}

// That a file is accepted, and what the check has shown of it.
#[derive(Clone, Copy)]
struct Accepted(Strictness);

impl fmt::Display for Accepted {
    fn fmt<W: fmt::Write>(&self, f: &mut fmt::Formatter<W>) -> fmt::Result {
        f.write_str(match self.0 {
            Strictness::Plain => "accepted",
            Strictness::Strict => "accepted, and no two transitions clash",
        })
    }
}

impl NetFile {
    // The file of this name; a missing one has no bytes.
    pub fn read(rt: &(impl Files + AllocGlobal), name: String) -> Result<NetFile, Failure> {
        match fs::read(rt, name.as_str()) {
            Ok(bytes) => Ok(NetFile { name, bytes }),
            Err(error) if matches!(error.kind(), io::ErrorKind::NotFound) => {
                let bytes = Vec::new(rt.alloc());
                Ok(NetFile { name, bytes })
            }
            Err(error) => Err(Failure::Unreadable { name, error }),
        }
    }

    // Checks the file, and prints what is found.
    pub fn check(&self, rt: &impl Print, strictness: Strictness) -> Result<(), Failure> {
        match netfile::check(self.bytes.as_slice(), strictness) {
            Ok(net) => Ok(self.accept(rt, strictness, &net)?),
            Err(refusal) => {
                self.refuse(rt, refusal)?;
                Err(Failure::Refused)
            }
        }
    }

    // Prints that the file is accepted, and its net.
    fn accept(&self, rt: &impl Print, strictness: Strictness, net: &Net) -> io::Result<()> {
        let accepted = Accepted(strictness);
        println!(rt; "{self}, {accepted}\n")?;
        rt.print(NetText(net))
    }

    // Prints that the file is refused, and why.
    fn refuse(&self, rt: &impl Print, refusal: Refusal) -> io::Result<()> {
        let bytes = self.bytes.len();
        println!(rt; "{self}, refused")?;
        rt.println(RefusalCode::from(refusal))?;
        rt.println(Reason { refusal, bytes })
    }
}
