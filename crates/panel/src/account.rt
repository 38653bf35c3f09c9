// What is printed of a panel, by functions and no Display: the words are the panel's own, and the cases have others for the same values.
use calls::requests::{Answer, Reply, Request, RequestError};
use hir::environment::Environment;
use hir::tables::JournalRow;
use report::names::print_name;
use report::words::{reason_words, refusal_words};
use std::io;

// Prints what was asked.
fn print_request(rt: &HostRuntime, request: Request) -> io::Result<()> {
    match request {
        Request::Run(tree, _) => print!(rt; "run over tree {tree}"),
        Request::Give(id) => print!(rt; "give ${}", id.0),
        Request::Look(id) => print!(rt; "look at ${}", id.0),
        Request::Spell(id) => print!(rt; "spell ${}", id.0),
    }
}

// Prints what was answered.
fn print_answer(rt: &HostRuntime, answer: Answer) -> io::Result<()> {
    match answer {
        Ok(Reply::Ran(place, count)) => println!(rt; "{count} named, from journal row {place} on"),
        Ok(Reply::Given) => println!(rt; "given"),
        Ok(Reply::Tag(tag)) => println!(rt; "tag {tag}"),
        Ok(Reply::Length(length)) => println!(rt; "{length} bytes"),
        Err(RequestError::Refused(refusal)) => println!(rt;
            "refused {}: {}",
            refusal.number(),
            refusal_words(refusal)
        ),
        Err(RequestError::NoTree) => println!(rt; "no such tree"),
    }
}

// Prints a call and its answer.
pub fn print_call(rt: &HostRuntime, request: Request, answer: Answer) -> io::Result<()> {
    print_request(rt, request)?;
    print!(rt; ": ")?;
    print_answer(rt, answer)
}

// Prints an identifier that a run named, with its name and the reason.
fn print_journal_row(rt: &HostRuntime, env: &Environment, row: JournalRow) -> io::Result<()> {
    print!(rt; "${} is ", row.identifier.0)?;
    print_name(rt, env, row.identifier)?;
    println!(rt;
        ": reason {}, {}",
        row.reason.number(),
        reason_words(row.reason)
    )
}

// Prints the journal.
pub fn print_journal(rt: &HostRuntime, env: &Environment) -> io::Result<()> {
    for row in env.journal.iter().take(env.count) {
        print_journal_row(rt, env, *row)?;
    }
    Ok(())
}

// Prints each identifier that stays inline.
pub fn print_inline(rt: &HostRuntime, env: &Environment) -> io::Result<()> {
    for (i, row) in env.identifiers.iter().enumerate() {
        if row.is_unnamed() {
            println!(rt; "${i} stays inline")?;
        }
    }
    Ok(())
}
