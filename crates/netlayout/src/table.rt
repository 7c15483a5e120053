// The three tables of a net file.
ghost use Rattle.std.specs.Prelude.{◌≡◌, Some};
ghost use Rattle.netlayout.specs.Names.{table_name};
ghost use Rattle.netlayout.specs.Tables.{table_number, record_size, pair_place};

use std::fmt;

#[derive(Clone, Copy, Debug, PartialEq, Eq)]
pub enum Table {
    Places,
    Arcs,
    Terms,
}

impl Table {
    // Its number in a refusal, which is also that of its pair; a name and no `From`, since a table has other numbers too.
    pub fn number(self) -> usize
        ensures { result ≡ table_number self }
    {
        self as usize + 1
    }

    // How many bytes one of its records has, by the file's layout.
    pub fn record_size(self) -> usize
        ensures { result ≡ record_size self }
    {
        match self {
            Table::Places => 5,
            Table::Arcs => 3,
            Table::Terms => 9,
        }
    }

    // Where in the file its pair of offset and length stands: the pairs of four bytes follow the four counts.
    pub(crate) fn pair_place(self) -> usize
        ensures { result ≡ pair_place self }
    {
        4 * self.number()
    }
}

impl fmt::Display for Table {
    ghost output = { λ table. Some (table_name table) };

    fn fmt<W: fmt::Write>(&self, f: &mut fmt::Formatter<W>) -> fmt::Result {
        f.write_str(match self {
            Table::Places => "places table",
            Table::Arcs => "arcs table",
            Table::Terms => "terms table",
        })
    }
}
