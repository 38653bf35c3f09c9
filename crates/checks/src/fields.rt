// Faults of a row's fields.
ghost use Rattle.std.specs.Prelude.{◌≡◌};
ghost use Rattle.reactive.specs.Codes.{code_number};
ghost use Rattle.reactive.specs.Kinds.{kind_number};
ghost use Rattle.checks.specs.Rows.{needs_identifier, may_have_identifier, wrong_identifier, needs_function, wrong_number, wrong_mode, one_mark, wrong_marks, absent_in, wrong_leaf, leafless, wrong_fields};

use crate::sizes::Sizes;
use hir::ids::IdentifierId;
use reactive::code::Code;
use reactive::given::{GivenRow, Identifiers};
use reactive::kind::Kind;
use reactive::mode::Mode;
use reactive::row::{Number, RowHead};
use reactive::source::TreeSource;

// Whether a row of this code has to have an identifier.
fn needs_identifier(code: Code) -> bool
    ensures { result ≡ needs_identifier (code_number code) }
{
    matches!(code, Code::Return | Code::Throw | Code::Switch | Code::If)
}

// Whether a row of this code may have an identifier, or none.
fn may_have_identifier(code: Code) -> bool
    ensures { result ≡ may_have_identifier (code_number code) }
{
    matches!(code, Code::Instruction | Code::Case | Code::Handler)
}

// Whether an identifier is missing, comes where none may, or is absent from the table.
fn wrong_identifier(count: usize, code: Code, identifier: Option<IdentifierId>) -> bool
    ensures { result ≡ wrong_identifier count (code_number code) identifier }
{
    match identifier {
        Some(id) => !(needs_identifier(code) || may_have_identifier(code))
            || id.0 as usize >= count,
        None => needs_identifier(code),
    }
}

// Whether a row is a Leaf that is a function expression or an object method.
fn needs_function(code: Code, row: &RowHead) -> bool
    ensures { result ≡ needs_function (code_number code) row.now.kind }
{
    matches!(code, Code::Leaf)
        && (row.is_kind(Kind::ObjectMethod) || row.is_kind(Kind::FunctionExpression))
}

// Whether a number is missing, is of the wrong sort, or is absent from its table.
fn wrong_number(sizes: Sizes, code: Code, row: &RowHead) -> bool
    ensures { result ≡ wrong_number sizes (code_number code) row.now.kind row.now.number }
{
    match row.number {
        Some(Number::Scope(scope)) => !code.has_scope() || scope.0 as usize >= sizes.scopes,
        Some(Number::Function(function)) => !needs_function(code, row)
            || function.0 as usize >= sizes.functions,
        None => code.has_scope() || needs_function(code, row),
    }
}

// Whether the byte is no mode, or there is one where the kind has none. Whether it is 0 is asked first, since 0 is right for every kind: as the mode Const, or as none.
fn wrong_mode(kind: Kind, mode: u8) -> bool
    ensures { result ≡ wrong_mode (kind_number kind) mode }
{
    match kind {
        _ if mode == 0 => false,
        Kind::DeclareLocal
        | Kind::DeclareContext
        | Kind::StoreLocal
        | Kind::StoreContext
        | Kind::Destructure => Mode::try_from(mode).is_err(),
        _ => true,
    }
}

// Whether a Leaf of this kind has exactly one mark.
fn one_mark(kind: Kind) -> bool
    ensures { result ≡ one_mark (kind_number kind) }
{
    matches!(
        kind,
        Kind::LoadLocal
            | Kind::LoadContext
            | Kind::DeclareLocal
            | Kind::DeclareContext
            | Kind::StoreLocal
            | Kind::StoreContext
            | Kind::MethodCall
            | Kind::PropertyLoad
            | Kind::ComputedLoad
    )
}

// Whether a Leaf of this kind may not have so many marks.
fn wrong_marks(kind: Kind, count: usize) -> bool
    ensures { result ≡ wrong_marks (kind_number kind) count }
{
    match kind {
        Kind::Destructure => false,
        Kind::JsxExpression => count > 1,
        _ if one_mark(kind) => count != 1,
        _ => count != 0,
    }
}

// Whether some identifier of a list is absent, by a loop and no chain: a rule of this project for range checks.
// Beside `some_absent` of numbers: one for any iterator would have to speak of items that it does not reach.
fn absent_in<S: TreeSource>(ids: Identifiers<S>, count: usize) -> bool
    ensures { result ≡ absent_in count ids.entry }
{
    for id in ids {
        if id.0 as usize >= count {
            return true;
        }
    }
    false
}

// Whether what belongs to a Leaf is wrong in a row.
fn wrong_leaf<S: TreeSource>(row: &GivenRow<S>, count: usize) -> bool
    ensures { result ≡ wrong_leaf count row.now }
{
    let head = row.head();
    let Ok(kind) = Kind::try_from(head.kind) else {
        return true;
    };
    wrong_mode(kind, head.mode)
        || wrong_marks(kind, head.marks)
        || absent_in(row.operands(), count)
        || absent_in(row.marks(), count)
}

// Whether what belongs to a Leaf is 0 or empty. The zeros are empty fields here, no kind and no mode.
fn leafless(row: &RowHead) -> bool
    ensures { result ≡ leafless row.now }
{
    row.kind == 0 && row.mode == 0 && row.operands == 0 && row.marks == 0
}

// Whether a field of a row of this code is wrong. The code comes apart from the row, in which it is still a byte.
pub fn wrong_fields<S: TreeSource>(row: &GivenRow<S>, code: Code, sizes: Sizes) -> bool
    requires { code_number code ≡ row.now.code }
    ensures { result ≡ wrong_fields sizes row.now }
{
    let head = row.head();
    wrong_identifier(sizes.identifiers, code, head.identifier)
        || wrong_number(sizes, code, head)
        || match code {
            Code::Leaf => wrong_leaf(row, sizes.identifiers),
            _ => !leafless(head),
        }
}
