// The row that a source gave last, with its lists.
ghost use Rattle.std.specs.Prelude.{◌≡◌};
ghost use Rattle.reactive.specs.Rows.{head, last_row, given, pick};
ghost use Rattle.reactive.specs.Given.{Given, list_of};

use crate::row::RowHead;
use crate::source::TreeSource;
use hir::ids::IdentifierId;
use std::marker::Model;

// One of the two lists of a row: a name and no closure, since an iterator keeps it and asks on.
#[derive(Clone, Copy)]
pub enum RowList {
    Operands,
    Marks,
}

impl RowList {
    // Identifier i of this list of the row last given.
    fn item<S: TreeSource>(self, source: &S, i: usize) -> Option<IdentifierId>
        ensures { result ≡ pick (list_of self) (given (S.TreeSource.reading source.now)) i }
    {
        match self {
            RowList::Operands => source.operand(i),
            RowList::Marks => source.mark(i),
        }
    }
}

// A row, and the source that gave it last and answers its lists.
#[derive(Drop)]
pub struct GivenRow<'a, S: TreeSource> {
    head: RowHead,
    source: &'a S,
}

impl<'a, S: TreeSource> Model for GivenRow<'a, S> {
    ghost use Rattle.reactive.specs.Rows.{Row, last_row};
    ghost use Rattle.reactive.specs.Given.{Given};

    ghost Value = { Row };

    ghost view = { λ g. last_row (S.TreeSource.reading g.source.now) };

    ghost invariant = { λ g. Given (S.TreeSource.reading g.source.now) g.head };
}

impl<'a, S: TreeSource> GivenRow<'a, S> {
    // The row that `source` gave last, which is this one.
    pub fn new(head: RowHead, source: &'a S) -> GivenRow<'a, S>
        requires { Given (S.TreeSource.reading source.now) head }
        ensures { result ≡ last_row (S.TreeSource.reading source.now) }
    {
        GivenRow { head, source }
    }

    // The row without its lists.
    pub fn head(&self) -> &RowHead
        ensures { result.now ≡ head self.now }
    {
        &self.head
    }

    // A list of the row, in order.
    pub fn list(&self, list: RowList) -> Identifiers<'a, S>
        ensures { result ≡ list_of list self.now }
    {
        Identifiers {
            source: self.source,
            list,
            place: 0,
        }
    }

    // The operands of the row, in order.
    pub fn operands(&self) -> Identifiers<'a, S>
        ensures { result ≡ self.now.operands }
    {
        self.list(RowList::Operands)
    }

    // The marks of the row, in order.
    pub fn marks(&self) -> Identifiers<'a, S>
        ensures { result ≡ self.now.marks }
    {
        self.list(RowList::Marks)
    }
}

// The identifiers of a list of a row that are still to come. They end where the source has no more: no length is asked for.
#[derive(Drop)]
pub struct Identifiers<'a, S: TreeSource> {
    source: &'a S,
    list: RowList,
    place: usize,
}

impl<'a, S: TreeSource> Model for Identifiers<'a, S> {
    ghost use Rattle.std.specs.Prelude.{List, drop};
    ghost use Rattle.hir.specs.declared.ids.IdentifierId.{IdentifierId};
    ghost use Rattle.reactive.specs.Rows.{last_row};
    ghost use Rattle.reactive.specs.Given.{Lists, list_of};

    ghost Value = { List IdentifierId };

    ghost view = { λ i. drop i.place (list_of i.list (last_row (S.TreeSource.reading i.source.now))) };

    ghost invariant = { λ i. Lists (S.TreeSource.reading i.source.now) i.list };
}

impl<'a, S: TreeSource> Iterator for Identifiers<'a, S> {
    type Item = IdentifierId;

    ghost use Rattle.std.specs.Iterator.{YieldsFirst, item_count};

    ghost next_gives = { YieldsFirst (λ ids. ids) };

    ghost remaining = { item_count (λ ids. ids) };

    fn next(&mut self) -> Option<IdentifierId> {
        let id = self.list.item(self.source, self.place)?;
        self.place += 1;
        Some(id)
    }
}
