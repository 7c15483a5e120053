// Tries the reader of net files on the files of a table, and the token game on the nets of another, and says where an answer is not the table's.
#![tactic(auto)]

mod answer;
mod file_bytes;
mod question;
mod split;
mod tally;
mod trial;
mod wrong_paragraph;

use std::fs::Files;
use std::{fs, io};
use trial::Trial;

// The tables of the cases: damaged and sound files, and nets that are asked about.
const TABLES: [&str; 2] = ["files.txt", "nets.txt"];

// Tries the paragraphs of a table in turn, and shows the first that says nothing.
fn try_all(
    rt: &(impl Files + AllocGlobal + Print + Eprint),
    trial: &mut Trial,
    name: &str,
) -> io::Result<()> {
    let table = fs::read_to_string(rt, name)?;
    for paragraph in table.split("\n\n") {
        if let Err(error) = trial.take(rt, paragraph) {
            eprintln!(rt; "{name} has a wrong paragraph:\n{paragraph}")?;
            return Err(error);
        }
    }
    Ok(())
}

// Tries all cases, and fails where an answer is wrong or there is no case.
fn main(rt: HostRuntime) -> io::Result<()> {
    let mut trial = Trial::new(rt.alloc());
    for name in TABLES {
        try_all(&rt, &mut trial, name)?;
    }
    trial.finish(&rt)
}
