// The tables of a case: what calls read, and what they write.
ghost use Rattle.std.specs.Prelude.{◌≡◌};
ghost use Rattle.hir.specs.Environments.{model};
ghost use Rattle.hir.specs.Scratches.{noted};

use hir::environment::Environment;
use hir::ids::{DeclarationId, IdentifierId, ScopeId};
use hir::packed::{PackedEpoch, PackedLink, PackedRecording};
use hir::scratch::{Scratch, Trail, Work};
use hir::tables::{Function, Identifier, JournalRow, Reason, Scope};
use hir::tag::Tag;
use std::alloc::{AllocError, Global};

// How much scratch there is, or is needed.
#[derive(Clone, Copy)]
pub struct ScratchSize {
    pub work: usize,
    pub marks: usize,
    pub trail: usize,
}

// The tables that calls only read.
#[derive(Drop)]
pub struct Tables {
    pub scopes: Vec<Scope>,
    pub functions: Vec<Function>,
    pub pool: Vec<u32>,
}

// The tables that calls write, and the scratch. The journal has free rows, of which `count` are in use, as calls want it.
#[derive(Clone, PartialEq, Drop)]
pub struct State {
    pub identifiers: Vec<Identifier>,
    pub journal: Vec<JournalRow>,
    pub count: usize,
    pub work: Vec<Work>,
    pub marks: Vec<bool>,
    pub trail: Vec<Trail>,
}

impl State {
    // No identifiers, no journal, no scratch.
    pub fn new(heap: Global) -> State {
        State {
            identifiers: Vec::new(heap),
            journal: Vec::new(heap),
            count: 0,
            work: Vec::new(heap),
            marks: Vec::new(heap),
            trail: Vec::new(heap),
        }
    }

    // So many identifiers without a name, each with a declaration of its own.
    pub fn set_identifiers(&mut self, heap: Global, count: u32) -> Result<(), AllocError> {
        self.identifiers = (0..count)
            .map(|i| Identifier {
                declaration: DeclarationId(i),
                tag: Tag::Unnamed as u8,
            })
            .collect(heap)?;
        self.set_journal(heap, count as usize)
    }

    // So many journal rows.
    pub fn set_journal(&mut self, heap: Global, length: usize) -> Result<(), AllocError> {
        self.journal = vec![in heap; JournalRow {
            identifier: IdentifierId(0),
            reason: Reason::OwnParameter
        }; length]?;
        Ok(())
    }

    // Scratch of these sizes, full of notes, since no answer may depend on them.
    pub fn set_scratch(&mut self, heap: Global, size: ScratchSize) -> Result<(), AllocError> {
        let full = Work {
            tag: true,
            promoted: true,
            recorded: PackedRecording::new(None),
            escaped: true,
            constant: true,
            global: true,
            tracked: PackedEpoch::new(1),
        };
        self.work = vec![in heap; full; size.work]?;
        self.marks = vec![in heap; true; size.marks]?;
        self.trail = vec![in heap; Trail {
            scope: ScopeId(1),
            link: PackedLink::new(Some(0))
        }; size.trail]?;
        Ok(())
    }

    // Whether there is less scratch than is needed.
    pub fn scratch_is_short(&self, needed: ScratchSize) -> bool {
        self.work.len() < needed.work
            || self.marks.len() < needed.marks
            || self.trail.len() < needed.trail
    }

    // The environment of these tables, and the scratch, lent to calls.
    pub fn lend<'a>(&'a mut self, tables: &'a Tables) -> (Environment<'a>, Scratch<'a>)
        ensures env { model result.0 ≡ record {
          identifiers = self.old.identifiers.items;
          scopes = tables.now.scopes.items;
          functions = tables.now.functions.items;
          pool = tables.now.pool.items;
          journal = self.old.journal.items;
          count = self.old.count;
        } }
        ensures scratch { noted result.1 ≡ record {
          work = self.old.work.items;
          marks = self.old.marks.items;
          trail = self.old.trail.items;
        } }
    {
        let count = self.count;
        let mut env = Environment::new(
            &mut self.identifiers,
            &tables.scopes,
            &tables.functions,
            &tables.pool,
            &mut self.journal,
        );
        env.count = count;
        let scratch = Scratch {
            work: &mut self.work,
            marks: &mut self.marks,
            trail: &mut self.trail,
        };
        (env, scratch)
    }
}
