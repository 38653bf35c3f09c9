// Times runs over the first tree of the image that standard input holds, as a table of rows: prints the nanoseconds of the best,
// and the rows of the tree.
#![tactic(auto)]

use calls::run::run;
use hir::span::Span;
use hir::tables::Identifier;
use image_source::source::ImageSource;
use image_tables::load::load;
use image_tables::tables::Tables;
use reactive::given::{GivenRow, Identifiers};
use reactive::source::TreeSource;
use reactive::table::{RowEntry, TableSource};
use report::fault::Fault;
use session::session::Session;
use std::io::Read;
use std::time::{Duration, Instant};

// Runs are repeated for so long, and at most so often.
const MILLISECONDS: u64 = 400;

const MOST: usize = 20000;

// The nanoseconds of one run, after which names are as they were and the journal is empty.
fn time_run(
    rt: &HostRuntime,
    tables: &mut Tables,
    session: &mut Session,
    source: &mut TableSource,
    before: &[Identifier],
) -> Result<u128, Fault> {
    let Some(panel) = tables.panels.first().copied() else {
        return Err(Fault::Line);
    };
    let (mut env, mut scratch) = session.lend(tables);
    let from = Instant::now(rt)?;
    let answer = run(&mut env, &mut scratch, source, panel.parameters);
    let took = from.elapsed(rt)?;
    if answer.is_err() {
        return Err(Fault::Line);
    }
    for (row, old) in env.identifiers.iter_mut().zip(before) {
        *row = *old;
    }
    Ok(took.as_nanos())
}

// The nanoseconds of the best run.
fn best_of(
    rt: &HostRuntime,
    tables: &mut Tables,
    session: &mut Session,
    source: &mut TableSource,
) -> Result<u128, Fault> {
    let before = tables.identifiers.clone()?;
    let started = Instant::now(rt)?;
    let mut best = u128::MAX;
    for _ in 0..MOST {
        best = best.min(time_run(rt, tables, session, source, &before)?);
        if started.elapsed(rt)? > Duration::from_millis(MILLISECONDS) {
            break;
        }
    }
    Ok(best)
}

// The numbers of a list behind those of the pool.
fn add_list<S: TreeSource>(pool: &mut Vec<u32>, ids: Identifiers<S>) -> Result<Span, Fault> {
    let start = pool.len();
    for id in ids {
        pool.push(id.0)?;
    }
    Ok(Span {
        start: u32::try_from(start).map_err(|_| Fault::Line)?,
        count: u32::try_from(pool.len().saturating_sub(start)).map_err(|_| Fault::Line)?,
    })
}

// The rows of a source as a table, whose lists go behind the pool.
fn tabled<S: TreeSource>(
    rt: &HostRuntime,
    source: &mut S,
    pool: &mut Vec<u32>,
) -> Result<Vec<RowEntry>, Fault> {
    let mut rows = Vec::new(rt.alloc());
    source.rewind();
    for _ in 0..usize::MAX {
        let Some(head) = source.next() else {
            break;
        };
        let row = GivenRow::new(head, source);
        rows.push(RowEntry {
            depth: head.depth,
            code: head.code,
            identifier: head.identifier,
            number: head.number,
            kind: head.kind,
            mode: head.mode,
            operands: add_list(pool, row.operands())?,
            marks: add_list(pool, row.marks())?,
        })?;
    }
    source.rewind();
    Ok(rows)
}

// Times the runs, and counts the rows.
fn time_image(rt: &HostRuntime) -> Result<(), Fault> {
    let mut image = Vec::new(rt.alloc());
    rt.stdin().read_to_end(&mut image)?;
    let Ok(mut tables) = load(rt.alloc(), &image) else {
        return Err(Fault::Line);
    };
    let Some(panel) = tables.panels.first().copied() else {
        return Err(Fault::Line);
    };
    let mut session = Session::new(rt.alloc(), &tables)?;
    let mut pool = Vec::new(rt.alloc());
    let entries = tabled(rt, &mut ImageSource::new(panel.content), &mut pool)?;
    let mut source = TableSource::new(&entries, &pool);
    let rows = entries.len();
    let best = best_of(rt, &mut tables, &mut session, &mut source)?;
    println!(rt; "{best} {rows}")?;
    Ok(())
}

// Prints the time, or why there is none.
fn main(rt: HostRuntime) -> std::io::Result<()> {
    match time_image(&rt) {
        Ok(()) => Ok(()),
        Err(fault) => println!(rt; "{fault}"),
    }
}
