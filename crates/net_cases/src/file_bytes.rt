// The bytes of a file, as the tables write them in hexadecimal.
use crate::split::head_and_rest;
use crate::wrong_paragraph::WrongParagraph;
use std::alloc::Global;
use std::fs::Files;
use std::{fs, io};

// The value of a digit. It is not `to_digit`, since the tables write no capital letters.
fn digit(byte: u8) -> Result<u8, WrongParagraph> {
    match byte {
        b'0'..=b'9' => Ok(byte - b'0'),
        b'a'..=b'f' => Ok(byte - b'a' + 10),
        _ => Err(WrongParagraph),
    }
}

// The byte that two digits say.
fn byte_of(digits: &[u8]) -> Result<u8, WrongParagraph> {
    match digits {
        [high, low] => Ok(digit(*high)? << 4 | digit(*low)?),
        _ => Err(WrongParagraph),
    }
}

// The bytes of a file that were told so far.
#[derive(Debug, Drop)]
pub struct FileBytes {
    bytes: Vec<u8>,
}

impl FileBytes {
    // No byte yet.
    pub fn new(heap: Global) -> FileBytes {
        FileBytes {
            bytes: Vec::new(heap),
        }
    }

    // The bytes in order.
    pub fn as_slice(&self) -> &[u8] {
        self.bytes.as_slice()
    }

    // Adds the bytes that a line says, or those of the file of bytes that it names.
    pub fn add_line(&mut self, rt: &(impl Files + AllocGlobal), line: &str) -> io::Result<()> {
        match head_and_rest(line, ' ') {
            ("include", name) => self.add_text(fs::read_to_string(rt, name)?.as_str()),
            _ => self.add_text(line),
        }
    }

    // Adds the bytes of the words of a text.
    fn add_text(&mut self, text: &str) -> io::Result<()> {
        for word in text.split_whitespace() {
            self.add_word(word)?;
        }
        Ok(())
    }

    // Adds the bytes of a word, which may be said to stand several times.
    fn add_word(&mut self, word: &str) -> io::Result<()> {
        let (digits, times) = word.split_once('*').unwrap_or((word, "1"));
        let times: usize = times.parse().map_err(WrongParagraph::from)?;
        for _ in 0..times {
            self.add_pairs(digits.as_bytes())?;
        }
        Ok(())
    }

    // Adds the bytes that pairs of digits say.
    fn add_pairs(&mut self, digits: &[u8]) -> io::Result<()> {
        for pair in digits.chunks(2) {
            self.bytes.push(byte_of(pair)?).map_err(|_| WrongParagraph)?;
        }
        Ok(())
    }
}
