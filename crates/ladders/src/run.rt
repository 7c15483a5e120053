// The run of steps over coils of any kind of level.
ghost use Rattle.std.specs.Prelude.{◌≡◌, ◌<◌, length, Ok};
ghost use Rattle.ladders.specs.Flows.{stored, flow_past, written, ran};
ghost use Rattle.ladders.specs.Grammar.{grammar};

use crate::flow::Flow;
use crate::step::{Op, Step};
use levels::Level;

// What an operation stores in a coil at level `x`, if it stores.
fn stored_level<L: Level>(op: Op, outcome: L, x: L) -> Option<L>
    ensures { result ≡ stored L.operations op outcome x }
{
    // A `match`: a table of closures would be no shorter, and would need an entry where nothing is stored.
    match op {
        Op::St => Some(outcome),
        Op::S => Some(x.either(outcome)),
        Op::R => Some(x.both(outcome.inverse())),
        _ => None,
    }
}

// One step: the flow after it, and what it stores.
pub(crate) fn take_step<L: Level>(flow: Flow<L>, step: Step, coils: &mut [L]) -> Flow<L>
    requires { step.coil < length coils.old }
    ensures flow { result ≡ flow_past L.operations step coils.old flow }
    ensures coils { coils.new ≡ written L.operations step coils.old flow }
{
    let coil = step.coil as usize;
    let x = coils[coil];
    if let Some(level) = stored_level(step.op, flow.result, x) {
        coils[coil] = level;
    }
    flow.after(step.op, x)
}

// Every step of a ladder in turn, over 193 coils: a slice, as a caller lends any list of coils.
pub(crate) fn run_steps<L: Level>(steps: &[Step], coils: &mut [L])
    requires whole { grammar steps.now ≡ Ok tt }
    requires count { length coils.old ≡ 193 }
    ensures { coils.new ≡ ran L.operations steps.now coils.old }
{
    // No `fold`: its closure would write the coils, and the proof then knows nothing of what it did to them.
    let mut flow = Flow::none();
    for step in steps {
        flow = take_step(flow, *step, coils);
    }
}
