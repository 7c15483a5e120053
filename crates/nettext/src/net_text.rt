// What is in a net, in rows of three columns: subject, verb and object. Rows are written by functions: a type for each would only hold what they take.
use crate::nouns::{Being, Counted, Noun, Numbered};
use nets::{Counts, Net, Term, Transition};
use std::fmt;

// What a row is about; further rows of the same leave it out.
#[derive(Clone, Copy)]
enum Subject {
    Net,
    Transition(usize),
    Place(usize),
    Same,
}

impl fmt::Display for Subject {
    fn fmt<W: fmt::Write>(&self, f: &mut fmt::Formatter<W>) -> fmt::Result {
        match *self {
            Subject::Net => write!(f, "{:<13}", "net"),
            Subject::Transition(number) => write!(f, "transition {number:<2}"),
            Subject::Place(number) => write!(f, "place {number:<7}"),
            Subject::Same => write!(f, "{:<13}", ""),
        }
    }
}

// Writes one row.
fn write_row<W: fmt::Write, D: fmt::Display + Drop>(
    f: &mut fmt::Formatter<W>,
    subject: Subject,
    verb: &str,
    object: D,
) -> fmt::Result {
    writeln!(f, "{subject}  {verb:<8}  {object}")
}

// How many of each a net has.
#[derive(Clone, Copy)]
struct CountsText(Counts);

impl fmt::Display for CountsText {
    fn fmt<W: fmt::Write>(&self, f: &mut fmt::Formatter<W>) -> fmt::Result {
        let counts = self.0;
        let places = Counted(counts.places, Noun::Place);
        let transitions = Counted(counts.transitions, Noun::Transition);
        let lines = Counted(counts.lines, Noun::Line);
        let outputs = Counted(counts.outputs, Noun::Output);
        write!(f, "{places}, {transitions}, {lines} and {outputs}")
    }
}

// When a term holds.
#[derive(Clone, Copy)]
struct TermText(Term);

impl fmt::Display for TermText {
    fn fmt<W: fmt::Write>(&self, f: &mut fmt::Formatter<W>) -> fmt::Result {
        let Term { high, low } = self.0;
        let highs = Being(Numbered::lines(high));
        let lows = Being(Numbered::lines(low));
        match (high, low) {
            (0, 0) => write!(f, "always"),
            (_, 0) => write!(f, "when {highs} high"),
            (0, _) => write!(f, "when {lows} low"),
            (_, _) => write!(f, "when {highs} high and {lows} low"),
        }
    }
}

// Writes the terms of a condition, each in a row of its own.
fn write_terms<W: fmt::Write>(f: &mut fmt::Formatter<W>, terms: &[Term]) -> fmt::Result {
    for (i, term) in terms.iter().enumerate() {
        let text = TermText(*term);
        match i {
            0 => write_row(f, Subject::Same, "fires", text)?,
            _ => write_row(f, Subject::Same, "", format_args!("or {text}"))?,
        }
    }
    Ok(())
}

// Writes what a transition does to which places, and when.
fn write_transition<W: fmt::Write>(
    f: &mut fmt::Formatter<W>,
    number: usize,
    transition: &Transition,
) -> fmt::Result {
    let consumed = Numbered::places(transition.consumes);
    let produced = Numbered::places(transition.produces);
    write_row(f, Subject::Transition(number), "consumes", consumed)?;
    write_row(f, Subject::Same, "produces", produced)?;
    let seen = [
        ("tests", transition.tests),
        ("inhibits", transition.inhibits),
    ];
    for (verb, places) in seen {
        if !places.is_empty() {
            write_row(f, Subject::Same, verb, Numbered::places(places))?;
        }
    }
    write_terms(f, transition.terms.as_slice())
}

// Writes the transitions by number, each after an empty row.
fn write_transitions<W: fmt::Write>(
    f: &mut fmt::Formatter<W>,
    transitions: &[Transition],
) -> fmt::Result {
    for (i, transition) in transitions.iter().enumerate() {
        f.write_str("\n")?;
        write_transition(f, i, transition)?;
    }
    Ok(())
}

// Writes the places by number, each with the outputs that it raises.
fn write_places<W: fmt::Write>(f: &mut fmt::Formatter<W>, raises: &[u32]) -> fmt::Result {
    for (i, word) in raises.iter().enumerate() {
        write_row(f, Subject::Place(i), "raises", Numbered::outputs(*word))?;
    }
    Ok(())
}

// The counts and the start of a net, then its transitions, then its places.
#[derive(Clone, Copy)]
pub struct NetText<'a>(pub &'a Net);

impl fmt::Display for NetText<'_> {
    fn fmt<W: fmt::Write>(&self, f: &mut fmt::Formatter<W>) -> fmt::Result {
        let net = self.0;
        let marked = Numbered::places(net.start());
        write_row(f, Subject::Net, "has", CountsText(net.counts()))?;
        write_row(
            f,
            Subject::Same,
            "starts",
            format_args!("with {marked} marked"),
        )?;
        write_transitions(f, net.transitions())?;
        f.write_str("\n")?;
        write_places(f, net.raises())
    }
}
