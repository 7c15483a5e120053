// What a net has to have once all its records are in it.
ghost use Rattle.std.specs.Prelude.{◌≡◌};
ghost use Rattle.netfile.specs.Rules.{transition_broken, transitions_broken, net_broken};
ghost use Rattle.bitset.specs.Lists.{first_of};
ghost use Rattle.std.specs.Result.{result_err};
ghost use Rattle.nets.specs.Stored.{net_of, transition_of};

use netlayout::Refusal;
use nets::{Net, Transition};

// What is wrong with transition `index`.
fn check_transition(transition: &Transition, index: usize) -> Result<(), Refusal>
    ensures { result_err result ≡ first_of (transition_broken (transition_of transition.now) index) }
{
    if transition.consumes.is_empty() && transition.produces.is_empty() {
        return Err(Refusal::MovesNothing(index));
    }
    if transition.terms.as_slice().is_empty() {
        return Err(Refusal::NoTerm(index));
    }
    Ok(())
}

// The first rule on transitions that the net breaks.
fn check_transitions(net: &Net) -> Result<(), Refusal>
    ensures { result_err result ≡ first_of (transitions_broken (net_of net.now)) }
{
    for (i, transition) in net.transitions().iter().enumerate() {
        check_transition(transition, i)?;
    }
    Ok(())
}

// The first rule on transitions or on the start that the net breaks.
pub(crate) fn check_net(net: &Net) -> Result<(), Refusal>
    ensures { result_err result ≡ first_of (net_broken (net_of net.now)) }
{
    check_transitions(net)?;
    if net.start().is_empty() {
        return Err(Refusal::NoStartPlace);
    }
    Ok(())
}
