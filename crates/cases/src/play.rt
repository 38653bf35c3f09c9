// Follows the lines of the cases: those that set a table up, and those that make a call and print what it answered.
use crate::answers::{Said, print_journal, print_tags};
use crate::case::Case;
use crate::fault::Fault;
use crate::words::{first_word, number, two_numbers};
use calls::requests::{Answer, RequestError};
use hir::ids::IdentifierId;
use naming::decimal::Decimal;
use naming::hexadecimal::Hexadecimal;
use naming::naming::Naming;
use std::str::from_utf8;

// Follows one line.
pub fn follow(rt: &HostRuntime, case: &mut Case, line: &str) -> Result<(), Fault> {
    let (word, rest) = first_word(line);
    match word {
        "" | "#" => Ok(()),
        "case" => begin(rt, case, rest),
        "repeat" => case.repeat(rest),
        "run" => show_run(rt, case, rest),
        "give" => show(rt, case.give(identifier(rest)?)),
        "look" => show(rt, case.look(identifier(rest)?)),
        "spell" => show_spell(rt, case, &Decimal, rest),
        "spell-hexadecimal" => show_spell(rt, case, &Hexadecimal, rest),
        "perform" => show_perform(rt, case, rest),
        _ => case.set(word, rest),
    }
}

// Ends a case with the tags that it leaves, and begins the next.
fn begin(rt: &HostRuntime, case: &mut Case, name: &str) -> Result<(), Fault> {
    print_tags(rt, &case.state)?;
    *case = Case::new(rt.alloc(), case.names);
    println!(rt; "case {name}")?;
    Ok(())
}

// `run TREE`, or `run` over the last tree
fn show_run(rt: &HostRuntime, case: &mut Case, text: &str) -> Result<(), Fault> {
    let place = case.tree_place(text)?;
    case.make_scratch()?;
    let before = case.state.clone()?;
    let answer = case.run(place)?;
    print!(rt; "{}", Said(answer))?;
    if answer.is_ok() {
        return print_journal(rt, &case.state, before.count);
    }
    // a refused run leaves everything as it was
    let outcome = if case.state == before {
        "unaltered"
    } else {
        "altered"
    };
    println!(rt; ", {outcome}")?;
    Ok(())
}

// The identifier that a text has the number of.
fn identifier(text: &str) -> Result<IdentifierId, Fault> {
    Ok(IdentifierId(number(text)?))
}

// Prints an answer on a line of its own: of `give I`, of `look I`, or of a request.
fn show(rt: &HostRuntime, answer: Answer) -> Result<(), Fault> {
    println!(rt; "{}", Said(answer))?;
    Ok(())
}

// `spell I BYTES`, or `spell-hexadecimal I BYTES`
fn show_spell<N: Naming>(
    rt: &HostRuntime,
    case: &mut Case,
    naming: &N,
    text: &str,
) -> Result<(), Fault> {
    let (target, bytes) = two_numbers(text)?;
    let mut buffer = vec![in rt.alloc(); b'.'; bytes as usize]?;
    let answer = case.spell(IdentifierId(target), naming, &mut buffer);
    let text = from_utf8(&buffer)?;
    println!(rt; "{}, buffer \"{text}\"", Said(answer))?;
    Ok(())
}

// `perform BYTES ROOM`: the requests so far, with a buffer of so many bytes and room for so many answers
fn show_perform(rt: &HostRuntime, case: &mut Case, text: &str) -> Result<(), Fault> {
    let (bytes, room) = two_numbers(text)?;
    case.make_scratch()?;
    let mut buffer = vec![in rt.alloc(); b'.'; bytes as usize]?;
    let mut answers = vec![in rt.alloc(); Err(RequestError::NoTree); room as usize]?;
    let before = case.state.count;
    let made = case.perform(&mut buffer, &mut answers)?;
    for answer in answers.iter().take(made) {
        show(rt, *answer)?;
    }
    let text = from_utf8(&buffer)?;
    print!(rt; "performed {made}, buffer \"{text}\", journal")?;
    print_journal(rt, &case.state, before)
}
