// The tables and rows of a panel that reads a state, verifies a tape, and then shows the state:
//
//     function Panel(props) {
//       const catalogued = props.catalogued;
//       const Row = props.row;
//       drive.verify(props);
//       return <Row done={catalogued} />;
//     }
use hir::ids::{DeclarationId, IdentifierId, ScopeId};
use hir::span::Span;
use hir::tables::{Identifier, Scope};
use hir::tag::Tag;
use reactive::code::Code;
use reactive::kind::Kind;
use reactive::row::Number;
use reactive::table::RowEntry;
use std::array;

// How many identifiers the panel has, and how many rows.
pub const IDENTIFIERS: usize = 8;

pub const ROWS: usize = 20;

// Every list of the panel, one behind the other.
pub const POOL: [u32; 8] = [0, 7, 1, 4, 5, 6, 3, 2];

// The panel's own parameters: its properties.
pub const PARAMETERS: Span = Span { start: 0, count: 1 };

// A part of the pool.
fn span(start: u32, count: u32) -> Span {
    Span { start, count }
}

// Identifier i has declaration i and no name.
pub fn identifiers() -> [Identifier; IDENTIFIERS] {
    array::from_fn(|i| Identifier {
        declaration: DeclarationId(i as u32),
        tag: Tag::Unnamed as u8,
    })
}

// The scope that keeps the element, identifier 7.
pub fn scopes() -> [Scope; 1] {
    [Scope {
        dependencies: Span::default(),
        declarations: span(1, 1),
        reassignments: Span::default(),
    }]
}

// A row without kind and lists.
fn row(depth: u32, code: Code, identifier: Option<u32>, number: Option<Number>) -> RowEntry {
    RowEntry {
        depth,
        code: code as u8,
        identifier: identifier.map(IdentifierId),
        number,
        ..RowEntry::default()
    }
}

// A Leaf.
fn leaf(depth: u32, kind: Kind, operands: Span, marks: Span) -> RowEntry {
    RowEntry {
        kind: kind as u8,
        operands,
        marks,
        ..row(depth, Code::Leaf, None, None)
    }
}

// The rows in walk order.
pub fn rows() -> [RowEntry; ROWS] {
    [
        row(0, Code::Block, None, None),
        row(1, Code::Instruction, Some(1), None),
        leaf(2, Kind::LoadLocal, span(0, 1), span(0, 1)),
        row(1, Code::Instruction, Some(2), None),
        leaf(2, Kind::PropertyLoad, span(2, 1), span(2, 1)),
        row(1, Code::Instruction, Some(3), None),
        leaf(2, Kind::PropertyLoad, span(2, 1), span(2, 1)),
        row(1, Code::Instruction, Some(4), None),
        leaf(2, Kind::LoadGlobal, Span::default(), Span::default()),
        row(1, Code::Instruction, Some(5), None),
        leaf(2, Kind::PropertyLoad, span(3, 1), span(3, 1)),
        row(1, Code::Instruction, Some(6), None),
        leaf(2, Kind::LoadLocal, span(0, 1), span(0, 1)),
        row(1, Code::Instruction, None, None),
        leaf(2, Kind::MethodCall, span(3, 3), span(4, 1)),
        row(1, Code::Scope, None, Some(Number::Scope(ScopeId(0)))),
        row(2, Code::Block, None, None),
        row(3, Code::Instruction, Some(7), None),
        leaf(4, Kind::JsxExpression, span(6, 2), span(6, 1)),
        row(1, Code::Return, Some(7), None),
    ]
}
