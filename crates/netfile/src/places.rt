// The places table.
ghost use Rattle.std.specs.Prelude.{◌≡◌};
ghost use Rattle.netfile.specs.Files.{place_said};
ghost use Rattle.netfile.specs.Steps.{place_wrong, place_put};

use crate::records::Record;
use bitset::Word;
use netlayout::{RecordFault, Refusal, Table};
use nets::Net;

// A place as the file has it: its start mark, untested as a rule names a wrong one, and the outputs that it raises.
#[derive(Clone, Copy)]
pub struct PlaceRecord {
    pub mark: u8,
    pub raise: u32,
}

impl Record<5> for PlaceRecord {
    ghost said = { place_said };

    ghost wrong = { place_wrong };

    ghost put_in = { place_put };

    fn from_bytes(bytes: [u8; 5]) -> PlaceRecord
        ensures { result ≡ place_said bytes }
    {
        let [mark, a, b, c, d] = bytes;
        PlaceRecord {
            mark,
            raise: u32::from_be_bytes([a, b, c, d]),
        }
    }

    fn put(self, net: &mut Net, index: usize) -> Result<(), Refusal> {
        if self.mark > 1 {
            return Err(Refusal::Record(Table::Places, index, RecordFault::StartMark));
        }
        if !self.raise.within(u32::below(net.counts().outputs)) {
            return Err(Refusal::Record(Table::Places, index, RecordFault::Output));
        }
        net.set_place(index, self.mark == 1, self.raise);
        Ok(())
    }
}
