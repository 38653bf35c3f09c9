// Names the temporaries of a panel, over its table of rows and over the same tree in an image in turn, and prints an account of it.
#![tactic(auto)]

mod account;
mod encoded;
mod tables;

use account::{print_call, print_inline, print_journal};
use calls::perform::perform;
use calls::requests::{Answer, Request, RequestError};
use either::Either;
use encoded::image_of;
use hir::environment::Environment;
use hir::ids::IdentifierId;
use hir::scratch::{Scratch, Trail, Work};
use hir::tables::{JournalRow, Reason};
use image_source::source::ImageSource;
use image_tables::load::load;
use naming::decimal::Decimal;
use reactive::table::TableSource;
use report::rows::print_rows;
use std::io;
use tables::{IDENTIFIERS, POOL, ROWS};

// The sources of the panel's tree, of either sort.
type Tree<'a> = Either<TableSource<'a>, ImageSource<'a>>;

// How many calls are made.
const CALLS: usize = 7;

// The calls that are made: a run over the image, a look and a spelling, a gift, a gift that is refused, a run over the table, and
// one over a tree that is not there.
const REQUESTS: [Request; CALLS] = [
    Request::Run(1, tables::PARAMETERS),
    Request::Look(IdentifierId(2)),
    Request::Spell(IdentifierId(3)),
    Request::Give(IdentifierId(1)),
    Request::Give(IdentifierId(2)),
    Request::Run(0, tables::PARAMETERS),
    Request::Run(2, tables::PARAMETERS),
];

// Makes the calls on the panel and prints what came of each.
fn name_panel(rt: &HostRuntime, env: &mut Environment, trees: &mut [Tree]) -> io::Result<()> {
    let mut work = [Work::default(); IDENTIFIERS];
    let mut marks = [false; 0];
    let mut trail = [Trail::default(); ROWS];
    let mut scratch = Scratch {
        work: &mut work,
        marks: &mut marks,
        trail: &mut trail,
    };
    let mut text = [0u8; 12];
    let mut answers: [Answer; CALLS] = [Err(RequestError::NoTree); CALLS];
    let made = perform(
        env,
        &mut scratch,
        trees,
        &Decimal,
        &mut text,
        &REQUESTS,
        &mut answers,
    );
    for (request, answer) in REQUESTS.iter().zip(&answers).take(made) {
        print_call(rt, *request, *answer)?;
    }
    Ok(())
}

// Makes the calls and prints them, who is named, and what stays inline.
fn print_account(rt: &HostRuntime, trees: &mut [Tree]) -> io::Result<()> {
    let mut identifiers = tables::identifiers();
    let scopes = tables::scopes();
    let mut journal = [JournalRow {
        identifier: IdentifierId(0),
        reason: Reason::OwnParameter,
    }; IDENTIFIERS];
    let mut env = Environment::new(&mut identifiers, &scopes, &[], &POOL, &mut journal);
    println!(rt; "\nThe calls:")?;
    name_panel(rt, &mut env, trees)?;
    println!(rt; "\nNamed:")?;
    print_journal(rt, &env)?;
    println!(rt; "\nInline:")?;
    print_inline(rt, &env)
}

// Makes the image, prints the rows, and makes the calls over both of the panel's trees.
fn main(rt: HostRuntime) -> io::Result<()> {
    let rows = tables::rows();
    let Ok(image) = image_of(rt.alloc(), &rows) else {
        return println!(rt; "The panel has no image.");
    };
    let Ok(loaded) = load(rt.alloc(), &image) else {
        return println!(rt; "The bytes are no image.");
    };
    let Some(panel) = loaded.panels.first() else {
        return println!(rt; "The image has no tree.");
    };
    let mut trees = [
        Either::Left(TableSource::new(&rows, &POOL)),
        Either::Right(ImageSource::new(panel.content)),
    ];
    println!(rt; "The panel's rows:")?;
    print_rows(&rt, &mut trees[0])?;
    print_account(&rt, &mut trees)
}
