// Faults of a tree's rows.
ghost use Rattle.std.specs.Prelude.{◌≡◌, [], length};
ghost use Rattle.hir.specs.Environments.{model};
ghost use Rattle.hir.specs.Refusals.{answered};
ghost use Rattle.reactive.specs.Rows.{rewound, scope_rows};
ghost use Rattle.reactive.specs.Lvalues.{without_temporary, some_without_temporary};
ghost use Rattle.checks.specs.Rows.{sizes, row_passes_limit, rows_refusal, tree_refusal};

use crate::fields::wrong_fields;
use crate::sizes::Sizes;
use crate::stack::Stack;
use hir::environment::Environment;
use hir::refusal::Refusal;
use hir::scratch::Scratch;
use hir::span::{LONGEST_LIST, MOST_OPEN};
use reactive::code::Code;
use reactive::given::GivenRow;
use reactive::row::RowHead;
use reactive::source::TreeSource;

// The most rows of a tree.
const MOST_ROWS: usize = 262144;

// Whether a row comes after the most that a tree has, or has a list that is too long.
fn passes_limit(seen: usize, row: &RowHead) -> bool
    ensures { result ≡ row_passes_limit seen row.now }
{
    let longest = LONGEST_LIST as usize;
    seen >= MOST_ROWS || row.operands > longest || row.marks > longest
}

// Whether a row is an Instruction whose lvalue is absent or named.
fn without_temporary(env: &Environment, row: &RowHead) -> bool
    ensures { result ≡ without_temporary (model env.now) row.now }
{
    row.is(Code::Instruction)
        && match row.identifier {
            Some(lvalue) => !env.lacks_name(lvalue),
            None => true,
        }
}

// What is wrong with the rows of a source at its start, and else how many are Scope rows, and whether some is an Instruction whose lvalue is absent or named.
fn check_all<S: TreeSource>(source: &mut S, env: &Environment) -> Result<(usize, bool), Refusal>
    requires { (S.TreeSource.reading source.old).place ≡ 0 }
    ensures value { result ≡ answered (rows_refusal (sizes (model env.now)) 0 [] (S.TreeSource.reading source.old).rows) (scope_rows (S.TreeSource.reading source.old).rows, some_without_temporary (model env.now) (S.TreeSource.reading source.old).rows) }
    ensures rows { (S.TreeSource.reading source.new).rows ≡ (S.TreeSource.reading source.old).rows }
{
    let sizes = Sizes::from(env);
    let mut stack = Stack::new();
    // Counted by hand: the source answers the lists of each row before the next, so that no iterator can hold it.
    let mut seen: usize = 0;
    let mut scopes: usize = 0;
    let mut some_without = false;
    while let Some(row) = source.next() {
        if passes_limit(seen, &row) {
            return Err(Refusal::Limit);
        }
        let depth = row.depth as usize;
        if depth >= MOST_OPEN {
            return Err(Refusal::Depth);
        }
        let Ok(code) = Code::try_from(row.code) else {
            return Err(Refusal::Shape);
        };
        stack.enter(depth, code)?;
        if wrong_fields(&GivenRow::new(row, source), code, sizes) {
            return Err(Refusal::Field);
        }
        // Of the row: the byte is counted, and that no other code has its number would take a proof by the 24 codes.
        if row.is(Code::Scope) {
            scopes += 1;
        } else if without_temporary(env, &row) {
            some_without = true;
        }
        seen += 1;
    }
    stack.finish()?;
    Ok((scopes, some_without))
}

// What is wrong with the rows of a source, or with the trail rows for its scopes, and else whether some row is an Instruction whose lvalue is absent or named.
// Compiled apart, as is each pass: in one function they need more registers than there are.
#[inline(never)]
pub fn check_rows<S: TreeSource>(
    source: &mut S,
    env: &Environment,
    scratch: &Scratch,
) -> Result<bool, Refusal>
    ensures value { result ≡ answered (tree_refusal (sizes (model env.now)) (length scratch.now.trail.now) (S.TreeSource.reading source.old).rows) (some_without_temporary (model env.now) (S.TreeSource.reading source.old).rows) }
    ensures source { S.TreeSource.reading source.new ≡ rewound (S.TreeSource.reading source.old) }
{
    source.rewind();
    let checked = check_all(source, env);
    source.rewind();
    let (scopes, some_without) = checked?;
    if scopes > scratch.trail.len() {
        return Err(Refusal::Scratch);
    }
    Ok(some_without)
}
