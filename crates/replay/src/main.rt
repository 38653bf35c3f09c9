// Answers the images of standard input, a line for each in hexadecimal: the tags after each run, and the rows that it journalled.
#![tactic(auto)]

use hex::FromHexError;
use hir::environment::Environment;
use image_tables::load::load;
use image_tables::tables::Tables;
use report::fault::Fault;
use session::session::Session;
use std::alloc::AllocError;
use std::io;

// The tags of all identifiers as digits, and the journal rows from a place on, a dash for none of either.
fn print_run(rt: &HostRuntime, env: &Environment, first: usize) -> io::Result<()> {
    if env.identifiers.is_empty() {
        print!(rt; "-")?;
    }
    for row in env.identifiers.iter() {
        print!(rt; "{}", row.tag)?;
    }
    print!(rt; " ")?;
    if first == env.count {
        return print!(rt; "-");
    }
    for (i, row) in env.journal.iter().take(env.count).skip(first).enumerate() {
        let comma = if i > 0 { "," } else { "" };
        print!(rt; "{comma}{}:{}", row.identifier.0, row.reason.number())?;
    }
    Ok(())
}

// Runs over the tree at a place, and prints what it left, or the number of its refusal.
fn answer_run(
    rt: &HostRuntime,
    tables: &mut Tables,
    session: &mut Session,
    place: usize,
) -> Result<(), Fault> {
    let Some(panel) = tables.panels.get(place).copied() else {
        return Ok(());
    };
    match session.run(tables, panel) {
        Ok((first, _)) => {
            let (env, _) = session.lend(tables);
            print_run(rt, &env, first)?;
        }
        Err(refusal) => print!(rt; "refused {}", refusal.number())?,
    }
    Ok(())
}

// Answers the image of a line, its runs with a semicolon between two.
fn answer_line(rt: &HostRuntime, line: &str) -> Result<(), Fault> {
    let image = hex::decode(rt.alloc(), line).map_err(|e| match e {
        FromHexError::OutOfMemory => Fault::Memory(AllocError),
        _ => Fault::Line,
    })?;
    let Ok(mut tables) = load(rt.alloc(), &image) else {
        println!(rt; "no image")?;
        return Ok(());
    };
    let mut session = Session::new(rt.alloc(), &tables)?;
    for place in 0..tables.panels.len() {
        if place > 0 {
            print!(rt; ";")?;
        }
        answer_run(rt, &mut tables, &mut session, place)?;
    }
    println!(rt; "")?;
    Ok(())
}

// Answers all lines.
fn answer_all(rt: &HostRuntime) -> Result<(), Fault> {
    let text = io::read_to_string(rt.alloc(), rt.stdin())?;
    for line in text.lines() {
        answer_line(rt, line)?;
    }
    Ok(())
}

// Answers the images, or prints why it stops.
fn main(rt: HostRuntime) -> io::Result<()> {
    match answer_all(&rt) {
        Ok(()) => Ok(()),
        Err(fault) => println!(rt; "{fault}"),
    }
}
