// The arcs table.
ghost use Rattle.std.specs.Prelude.{◌≡◌};
ghost use Rattle.netfile.specs.Files.{arc_said};
ghost use Rattle.netfile.specs.Steps.{arc_wrong, arc_put};

use crate::records::Record;
use netlayout::{RecordFault, Refusal, Table};
use nets::{ArcKind, Net};

// An arc as the file has it: its transition, its place and the number of its kind, untested: a rule names a wrong one.
#[derive(Clone, Copy)]
pub struct ArcRecord {
    pub transition: usize,
    pub place: usize,
    pub kind: u8,
}

impl Record<3> for ArcRecord {
    ghost said = { arc_said };

    ghost wrong = { arc_wrong };

    ghost put_in = { arc_put };

    fn from_bytes(bytes: [u8; 3]) -> ArcRecord
        ensures { result ≡ arc_said bytes }
    {
        let [transition, place, kind] = bytes;
        ArcRecord {
            transition: usize::from(transition),
            place: usize::from(place),
            kind,
        }
    }

    fn put(self, net: &mut Net, index: usize) -> Result<(), Refusal> {
        let Some(transition) = net.transition(self.transition) else {
            return Err(Refusal::Record(Table::Arcs, index, RecordFault::Transition));
        };
        if self.place >= net.counts().places {
            return Err(Refusal::Record(Table::Arcs, index, RecordFault::Place));
        }
        let Ok(kind) = ArcKind::try_from(self.kind) else {
            return Err(Refusal::Record(Table::Arcs, index, RecordFault::Kind));
        };
        if transition.joins(self.place) {
            return Err(Refusal::RepeatedArc(index));
        }
        net.add_arc(self.transition, kind, self.place);
        Ok(())
    }
}
