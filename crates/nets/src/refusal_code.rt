// A refusal by its four numbers, whatever call refuses.
ghost use Rattle.std.specs.Prelude.{◌++◌, Some, codes, decimal};

use std::fmt;

// The documents name a refusal by these numbers alone, and programs print them.
#[derive(Clone, Copy, Debug, PartialEq, Eq)]
pub struct RefusalCode {
    pub number: usize,
    pub table: usize,
    pub index: usize,
    pub second: usize,
}

impl fmt::Display for RefusalCode {
    ghost output = { λ c. Some (decimal c.number ++ (codes " " ++ (decimal c.table ++ (codes " " ++ (decimal c.index ++ (codes " " ++ decimal c.second)))))) };

    fn fmt<W: fmt::Write>(&self, f: &mut fmt::Formatter<W>) -> fmt::Result {
        let RefusalCode {
            number,
            table,
            index,
            second,
        } = *self;
        write!(f, "{number} {table} {index} {second}")
    }
}
