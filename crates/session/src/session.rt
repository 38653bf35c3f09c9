// What runs write besides the tables of their image: a journal and scratch, which last from run to run.
ghost use Rattle.std.specs.Prelude.{◌≡◌, ◌/◌, min, IfOk};
ghost use Rattle.hir.specs.Environments.{model};
ghost use Rattle.hir.specs.Scratches.{noted};
ghost use Rattle.image_source.specs.Sections.{section_rows};
ghost use Rattle.session.specs.Runs.{environment, scratch, longest, Begun, run_answer, count_after};

use calls::run::run;
use hir::environment::Environment;
use hir::ids::IdentifierId;
use hir::refusal::Refusal;
use hir::scratch::{Scratch, Trail, Work};
use hir::tables::{JournalRow, Reason};
use image_source::source::ImageSource;
use image_tables::tables::{Panel, Tables};
use std::alloc::{AllocError, Global};

// The fewest bytes that a row takes in an image: one without operands, marks and rows within it.
const ROW_BYTES: usize = 23;

// A run refuses a tree of more rows.
const MOST_ROWS: usize = 262144;

// The journal has free rows, of which `count` are in use, as calls want it.
#[derive(Drop)]
pub struct Session {
    journal: Vec<JournalRow>,
    count: usize,
    work: Vec<Work>,
    marks: Vec<bool>,
    trail: Vec<Trail>,
}

// At least the number of rows of each tree that a run accepts.
fn most_rows(panels: &[Panel]) -> usize
    ensures { result ≡ min (longest panels.now / 23) 262144 }
{
    let longest = panels
        .iter()
        .fold(0, |most: usize, panel| most.max(panel.content.len()));
    (longest / ROW_BYTES).min(MOST_ROWS)
}

impl Session {
    // An empty journal, and scratch for every tree of the tables.
    pub fn new(heap: Global, tables: &Tables) -> Result<Session, AllocError>
        ensures { IfOk result (λ s. Begun tables.now s) }
    {
        let identifiers = tables.identifiers.len();
        Ok(Session {
            journal: vec![in heap; JournalRow {
                identifier: IdentifierId(0),
                reason: Reason::OwnParameter
            }; identifiers]?,
            count: 0,
            work: vec![in heap; Work::default(); identifiers]?,
            marks: vec![in heap; false; tables.functions.len()]?,
            trail: vec![in heap; Trail::default(); most_rows(&tables.panels)]?,
        })
    }

    // The environment of the tables with this journal, and the scratch, lent to a run.
    pub fn lend<'a>(&'a mut self, tables: &'a mut Tables) -> (Environment<'a>, Scratch<'a>)
        ensures env { model result.0 ≡ environment self.old tables.old }
        ensures scratch { noted result.1 ≡ scratch self.old }
    {
        let count = self.count;
        let mut env = Environment::new(
            &mut tables.identifiers,
            &tables.scopes,
            &tables.functions,
            &tables.pool,
            &mut self.journal,
        );
        env.count = count;
        let scratch = Scratch {
            work: &mut self.work,
            marks: &mut self.marks,
            trail: &mut self.trail,
        };
        (env, scratch)
    }

    // Runs over a tree of the tables, straight from its bytes: the place of the first new journal row and their count.
    pub fn run(&mut self, tables: &mut Tables, panel: Panel) -> Result<(usize, usize), Refusal>
        ensures answer { result ≡ run_answer (environment self.old tables.old) (scratch self.old) panel.entry.parameters (section_rows panel.entry.content.now) }
        ensures count { self.new.count ≡ count_after (environment self.old tables.old) (scratch self.old) panel.entry.parameters (section_rows panel.entry.content.now) }
    {
        let mut source = ImageSource::new(panel.content);
        let (mut env, mut scratch) = self.lend(tables);
        let answer = run(&mut env, &mut scratch, &mut source, panel.parameters);
        let count = env.count;
        self.count = count;
        answer
    }
}
