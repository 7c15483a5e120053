// The trial of the calls on files and nets, case by case.
use crate::answer::Answer;
use crate::file_bytes::FileBytes;
use crate::question::Question;
use crate::split::head_and_rest;
use crate::tally::Tally;
use crate::wrong_paragraph::WrongParagraph;
use netlayout::Refusal;
use nets::Net;
use nettext::{NetText, Reason};
use std::alloc::Global;
use std::fs::Files;
use std::io;

// Prints the reader's answer to a file of so many bytes in words: the net, or the sentence on the refusal.
fn print_words(rt: &impl Print, net: &Result<Net, Refusal>, bytes: usize) -> io::Result<()> {
    match net {
        Ok(net) => rt.print(NetText(net)),
        Err(refusal) => {
            let refusal = *refusal;
            let reason = Reason { refusal, bytes };
            println!(rt; "      {reason}")
        }
    }
}

// The answer that the next cases are to get, and how the cases so far were answered.
#[derive(Debug, Drop)]
pub struct Trial {
    answer: String,
    tally: Tally,
}

impl Trial {
    // No case yet.
    pub fn new(heap: Global) -> Trial {
        Trial {
            answer: String::new(heap),
            tally: Tally::default(),
        }
    }

    // Prints how the cases were answered, and fails where one was answered wrongly, or there was none.
    pub fn finish(&self, rt: &impl Print) -> io::Result<()> {
        rt.println(self.tally)?;
        if self.tally.is_passed() {
            return Ok(());
        }
        Err(io::ErrorKind::InvalidData.into())
    }

    // Takes a paragraph of a table; a match, since what follows each first word is read in its own way.
    pub fn take(
        &mut self,
        rt: &(impl Files + AllocGlobal + Print),
        paragraph: &str,
    ) -> io::Result<()> {
        let (word, rest) = head_and_rest(paragraph, ' ');
        match word {
            "answer" => {
                self.answer = String::from_str(rt.alloc(), rest)?;
                Ok(())
            }
            "case" => self.try_case(rt, rest),
            "net" => self.try_net(rt, rest),
            "#" | "##" => Ok(()),
            _ => Err(WrongParagraph.into()),
        }
    }

    // Tries the reader on a case: its name is the first line, and the others say the file's bytes.
    fn try_case(&mut self, rt: &(impl Files + AllocGlobal + Print), case: &str) -> io::Result<()> {
        let (name, lines) = head_and_rest(case, '\n');
        let mut file = FileBytes::new(rt.alloc());
        for line in lines.lines().filter(|line| *line != "say") {
            file.add_line(rt, line)?;
        }
        let file = file.as_slice();
        let net = netfile::read(file);
        let got = Answer::from(&net).to_string(rt.alloc())?;
        self.tally
            .judge(rt, name, self.answer.as_str(), got.as_str())?;
        if lines.lines().any(|line| line == "say") {
            print_words(rt, &net, file.len())?;
        }
        Ok(())
    }

    // Asks about a net: its name is the first line, and the others say the file's bytes, then a question and its answer each.
    fn try_net(
        &mut self,
        rt: &(impl Files + AllocGlobal + Print),
        paragraph: &str,
    ) -> io::Result<()> {
        let (name, lines) = head_and_rest(paragraph, '\n');
        println!(rt; "      {name}")?;
        let mut file = FileBytes::new(rt.alloc());
        for line in lines.lines() {
            match line.split_once(" = ") {
                Some((text, expected)) => {
                    let question: Question = text.parse()?;
                    let answer = question.answer(file.as_slice())?;
                    let got = answer.to_string(rt.alloc()).map_err(|_| WrongParagraph)?;
                    self.tally.judge(rt, text, expected, got.as_str())?;
                }
                None => file.add_line(rt, line)?,
            }
        }
        Ok(())
    }
}
