// How many cases were answered, and how many of them wrongly.
use std::{fmt, io};

// The cases that were tried, and those of them that were answered wrongly.
#[derive(Clone, Copy, Debug, Default, PartialEq, Eq)]
pub struct Tally {
    cases: usize,
    wrong: usize,
}

impl Tally {
    // Counts a case, and prints how it was answered.
    pub fn judge(
        &mut self,
        rt: &impl Print,
        name: &str,
        expected: &str,
        got: &str,
    ) -> io::Result<()> {
        self.cases = self.cases.saturating_add(1);
        if got == expected {
            return println!(rt; "ok    {name}: {got}");
        }
        self.wrong = self.wrong.saturating_add(1);
        println!(rt; "WRONG {name}: expected {expected}, got {got}")
    }

    // Whether there was a case, and none was answered wrongly.
    pub fn is_passed(self) -> bool {
        self.cases > 0 && self.wrong == 0
    }
}

impl fmt::Display for Tally {
    fn fmt<W: fmt::Write>(&self, f: &mut fmt::Formatter<W>) -> fmt::Result {
        let Tally { cases, wrong } = *self;
        write!(f, "{cases} cases, {wrong} wrong")
    }
}
