// Reads a panel as an image from standard input, runs its trees in order on one environment, and prints the account of each,
// a line for each thing and a tab between two parts of a line, so that a script can cut it.
#![tactic(auto)]

use hir::environment::Environment;
use image_tables::load::load;
use image_tables::tables::Tables;
use report::fault::Fault;
use report::faults::print_load_fault;
use report::names::print_name;
use report::words::{reason_words, refusal_words};
use session::session::Session;
use std::io;
use std::io::Read;
use std::process::ExitCode;

// The journal rows of a run over the tree at a place: identifier, name, reason and its words.
fn print_named(rt: &HostRuntime, env: &Environment, place: usize, first: usize) -> io::Result<()> {
    for row in env.journal.iter().take(env.count).skip(first) {
        print!(rt; "named\t{place}\t{}\t", row.identifier.0)?;
        print_name(rt, env, row.identifier)?;
        println!(rt; "\t{}\t{}", row.reason.number(), reason_words(row.reason))?;
    }
    Ok(())
}

// Runs over the tree at a place, and prints what came of it.
fn account_of(
    rt: &HostRuntime,
    tables: &mut Tables,
    session: &mut Session,
    place: usize,
) -> Result<(), Fault> {
    let Some(panel) = tables.panels.get(place).copied() else {
        return Ok(());
    };
    match session.run(tables, panel) {
        Ok((first, count)) => {
            println!(rt; "ran\t{place}\t{count}")?;
            let (env, _) = session.lend(tables);
            print_named(rt, &env, place, first)?;
        }
        Err(refusal) => println!(rt;
            "refused\t{place}\t{}\t{}",
            refusal.number(),
            refusal_words(refusal)
        )?,
    }
    Ok(())
}

// The account of an image: whether it is one, and then of each tree in order.
fn account(rt: &HostRuntime) -> Result<ExitCode, Fault> {
    let mut image = Vec::new(rt.alloc());
    rt.stdin().read_to_end(&mut image)?;
    let mut tables = match load(rt.alloc(), &image) {
        Ok(tables) => tables,
        Err(fault) => {
            print_load_fault(rt, fault)?;
            return Ok(ExitCode::FAILURE);
        }
    };
    let mut session = Session::new(rt.alloc(), &tables)?;
    for place in 0..tables.panels.len() {
        account_of(rt, &mut tables, &mut session, place)?;
    }
    Ok(ExitCode::SUCCESS)
}

// Prints the account, or why it stops.
fn main(rt: HostRuntime) -> ExitCode {
    match account(&rt) {
        Ok(code) => code,
        Err(fault) => {
            let _ = println!(rt; "{fault}");
            ExitCode::FAILURE
        }
    }
}
