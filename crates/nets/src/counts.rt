// How many places, transitions, lines and outputs a net has, each in its range.
ghost use Rattle.std.specs.Prelude.{◌≡◌, ◌≤◌, IfOk};
ghost use Rattle.bitset.specs.Lists.{first_of};
ghost use Rattle.nets.specs.Ranges.{out_of_range};
ghost use Rattle.std.specs.Result.{result_err};

use crate::quantity::Quantity;

#[derive(Clone, Copy)]
pub struct Counts {
    pub places: usize,
    pub transitions: usize,
    pub lines: usize,
    pub outputs: usize,
    ghost places_in_range: { (1 ≤ places) × (places ≤ 64) },
    ghost transitions_in_range: { (1 ≤ transitions) × (transitions ≤ 64) },
    ghost lines_in_range: { (1 ≤ lines) × (lines ≤ 32) },
    ghost outputs_in_range: { (1 ≤ outputs) × (outputs ≤ 32) },
}

impl Counts {
    // The counts, where each is in its range; else the first quantity that is not.
    pub fn new(
        places: usize,
        transitions: usize,
        lines: usize,
        outputs: usize,
    ) -> Result<Counts, Quantity>
        ensures refused { result_err result ≡ first_of (out_of_range places transitions lines outputs) }
        ensures granted { IfOk result (λ c. (c.places ≡ places) × (c.transitions ≡ transitions) × (c.lines ≡ lines) × (c.outputs ≡ outputs)) }
    {
        Quantity::Places.check(places)?;
        Quantity::Transitions.check(transitions)?;
        Quantity::Lines.check(lines)?;
        Quantity::Outputs.check(outputs)?;
        Ok(Counts {
            places,
            transitions,
            lines,
            outputs,
        })
    }
}
