// Finding a clash: two conflicting transitions that can both fire at some marking under some line word. The two are parameters, as of a conflict.
ghost use Rattle.std.specs.Prelude.{◌≡◌, length, min};
ghost use Rattle.nets.specs.Clashes.{lines_of_both, lines_with, lines_for, clash_between, clash_with, first_clash as first_clash_of, Told};
ghost use Rattle.nets.specs.Stored.{net_of, transition_of};

use crate::conflicts::conflict;
use crate::firing::{forbids, needs};
use bitset::Word;
use nets::{Clash, Net, Term, Transition};

// The lines that one of two terms wants high, if neither wants one of these low.
fn lines_of_both(one: Term, other: Term) -> Option<u32>
    ensures { result ≡ lines_of_both one other }
{
    let high = one.high | other.high;
    let low = one.low | other.low;
    if !high.apart(low) {
        return None;
    }
    Some(high)
}

// The same for a term and the first of several that goes with it.
fn lines_with(term: Term, others: &[Term]) -> Option<u32>
    ensures { result ≡ lines_with term others.now }
{
    others.iter().find_map(|other| lines_of_both(term, *other))
}

// A line word under which two conditions hold.
fn lines_for(terms: &[Term], others: &[Term]) -> Option<u32>
    ensures { result ≡ lines_for terms.now others.now }
{
    terms.iter().find_map(|term| lines_with(*term, others))
}

// The clash of two transitions, which have these numbers.
fn clash_between(one: &Transition, other: &Transition, lower: usize, higher: usize) -> Option<Clash>
    ensures { result ≡ clash_between (transition_of one.now) (transition_of other.now) lower higher }
{
    let marking = needs(one).union(needs(other));
    let unmarked = forbids(one).union(forbids(other));
    if !conflict(one, other) || marking.meets(unmarked) {
        return None;
    }
    let lines = lines_for(one.terms.as_slice(), other.terms.as_slice())?;
    Some(Clash {
        lower,
        higher,
        marking,
        lines,
    })
}

// The clash of transition `higher`, which is `other`, with the lowest that it clashes with.
fn clash_below(net: &Net, higher: usize, other: &Transition) -> Option<Clash>
    ensures { result ≡ clash_with (net_of net.now) (transition_of other.now) higher (min higher (length (net_of net.now).transitions)) }
{
    let transitions = net.transitions();
    // A slice and no `take`, which would count beside the slice.
    let below = &transitions[..higher.min(transitions.len())];
    below
        .iter()
        .enumerate()
        .find_map(|(lower, one)| clash_between(one, other, lower, higher))
}

// The clash with the least higher number, then the least lower, and where it shows.
pub fn first_clash(net: &Net) -> Option<Clash>
    ensures answer { result ≡ first_clash_of (net_of net.now) }
    ensures law { Told (net_of net.now) result }
{
    net.transitions()
        .iter()
        .enumerate()
        .find_map(|(higher, other)| clash_below(net, higher, other))
}
