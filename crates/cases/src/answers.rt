// Answers, journal rows and tags as text.
use crate::fault::Fault;
use crate::state::State;
use calls::requests::{Answer, Reply, RequestError};
use std::fmt;

// Journal rows and tags beyond so many are not printed.
const FEW: usize = 16;

// What a call answered: a type of its own, since a Result has no Display and the panel words its answers otherwise.
#[derive(Clone, Copy)]
pub struct Said(pub Answer);

impl fmt::Display for Said {
    fn fmt<W: fmt::Write>(&self, f: &mut fmt::Formatter<W>) -> fmt::Result {
        match self.0 {
            Ok(Reply::Ran(place, count)) => write!(f, "ran {place} {count}"),
            Ok(Reply::Given) => write!(f, "given"),
            Ok(Reply::Tag(tag)) => write!(f, "tag {tag}"),
            Ok(Reply::Length(length)) => write!(f, "length {length}"),
            Err(RequestError::Refused(refusal)) => write!(f, "refused {}", refusal.number()),
            Err(RequestError::NoTree) => write!(f, "no tree"),
        }
    }
}

// Ends the line with the journal rows from a place on, each as `(identifier,reason)`.
pub fn print_journal(rt: &HostRuntime, state: &State, first: usize) -> Result<(), Fault> {
    let used = state.journal.iter().take(state.count);
    for row in used.skip(first).take(FEW) {
        print!(rt; " ({},{})", row.identifier.0, row.reason.number())?;
    }
    rt.println("")?;
    Ok(())
}

// Prints the tags of all identifiers, where they are few.
pub fn print_tags(rt: &HostRuntime, state: &State) -> Result<(), Fault> {
    if state.identifiers.is_empty() || state.identifiers.len() > FEW {
        return Ok(());
    }
    print!(rt; "tags")?;
    for row in state.identifiers.iter() {
        print!(rt; " {}", row.tag)?;
    }
    rt.println("")?;
    Ok(())
}
