// What a net has a count of.
ghost use Rattle.std.specs.Prelude.{◌≡◌, true, Some, OnOk};
ghost use Rattle.nets.specs.Names.{quantity_name};
ghost use Rattle.nets.specs.Ranges.{most as the_most, in_range, unless_in_range};
ghost use Rattle.bitset.specs.Lists.{first_of};
ghost use Rattle.std.specs.Result.{result_err};

use std::fmt;

#[derive(Clone, Copy, Debug, PartialEq, Eq)]
pub enum Quantity {
    Places,
    Transitions,
    Lines,
    Outputs,
}

impl Quantity {
    // The most that a net may have of it.
    pub fn most(self) -> usize
        ensures { result ≡ the_most self }
    {
        match self {
            Quantity::Places | Quantity::Transitions => 64,
            Quantity::Lines | Quantity::Outputs => 32,
        }
    }

    // Whether a net may have so many of it: one at least.
    pub fn admits(self, count: usize) -> bool
        ensures { result ≡ in_range self count }
    {
        (1..=self.most()).contains(&count)
    }

    // An error with the quantity, where a net may not have so many of it.
    pub(crate) fn check(self, count: usize) -> Result<(), Quantity>
        ensures refused { result_err result ≡ first_of (unless_in_range self count) }
        ensures kept { OnOk result (in_range self count ≡ true) }
    {
        if self.admits(count) {
            Ok(())
        } else {
            Err(self)
        }
    }
}

impl fmt::Display for Quantity {
    ghost output = { λ q. Some (quantity_name q) };

    fn fmt<W: fmt::Write>(&self, f: &mut fmt::Formatter<W>) -> fmt::Result {
        f.write_str(match self {
            Quantity::Places => "places",
            Quantity::Transitions => "transitions",
            Quantity::Lines => "lines",
            Quantity::Outputs => "outputs",
        })
    }
}
