// Faults of the tables, the own parameters and the scratch.
ghost use Rattle.std.specs.Prelude.{◌≡◌, length, nat_le};
ghost use Rattle.hir.specs.Environments.{model, unnamed};
ghost use Rattle.std.specs.List.{list_any};
ghost use Rattle.hir.specs.Refusals.{answered};
ghost use Rattle.hir.specs.Scratches.{noted};
ghost use Rattle.checks.specs.Tables.{long_list, long_scope, long_function, passes_limit, bad_row, bad_list, bad_scope, bad_function, bad_lists, no_room, little_scratch, tables_refusal};

use hir::environment::{Environment, MOST_IDENTIFIERS};
use hir::refusal::Refusal;
use hir::scratch::Scratch;
use hir::span::{LONGEST_LIST, Span};
use hir::tables::{Function, Identifier, Scope};
use hir::tag::Tag;

// The most scopes.
const MOST_SCOPES: usize = 16384;

// The most functions.
const MOST_FUNCTIONS: usize = 4096;

// Whether a list is too long.
fn long_list(list: Span) -> bool
    ensures { result ≡ long_list list }
{
    list.count > LONGEST_LIST
}

// Whether a list of the scope is too long.
// Beside `bad_scope`, which asks more of each list: a chain over an array of the three is no plainer.
fn long_scope(scope: Scope) -> bool
    ensures { result ≡ long_scope scope }
{
    long_list(scope.dependencies) || long_list(scope.declarations) || long_list(scope.reassignments)
}

// Whether a list of the function is too long.
fn long_function(function: Function) -> bool
    ensures { result ≡ long_function function }
{
    long_list(function.parameters) || long_list(function.nested)
}

// Whether a list of some scope is too long.
// Each such test is a function of its own: with the chains written out in the callers these would need answers by hand.
fn some_long_scope(scopes: &[Scope]) -> bool
    ensures { result ≡ list_any long_scope scopes.now }
{
    scopes.iter().any(|scope| long_scope(*scope))
}

// Whether a list of some function is too long.
fn some_long_function(functions: &[Function]) -> bool
    ensures { result ≡ list_any long_function functions.now }
{
    functions.iter().any(|function| long_function(*function))
}

// Whether the tables or a list pass a limit.
fn passes_limit(env: &Environment, parameters: Span) -> bool
    ensures { result ≡ passes_limit (model env.now) parameters }
{
    env.identifiers.len() > MOST_IDENTIFIERS
        || env.scopes.len() > MOST_SCOPES
        || env.functions.len() > MOST_FUNCTIONS
        || some_long_scope(env.scopes)
        || some_long_function(env.functions)
        || long_list(parameters)
}

// Whether a row's declaration is not below the identifier count, or its tag is none.
fn bad_row(count: usize, identifier: Identifier) -> bool
    ensures { result ≡ bad_row count identifier }
{
    identifier.declaration.0 as usize >= count || Tag::try_from(identifier.tag).is_err()
}

// Whether some identifier's row is bad.
fn some_bad_row(identifiers: &[Identifier]) -> bool
    ensures { result ≡ list_any (bad_row (length identifiers.now)) identifiers.now }
{
    let count = identifiers.len();
    identifiers
        .iter()
        .any(|identifier| bad_row(count, *identifier))
}

// Whether some number is not below the count, by a loop and no chain: a rule of this project for range checks.
fn some_absent(count: usize, numbers: &[u32]) -> bool
    ensures { result ≡ list_any (nat_le count) numbers.now }
{
    for number in numbers {
        if *number as usize >= count {
            return true;
        }
    }
    false
}

// Whether a list leaves the pool, or has a number that is not below the count.
fn bad_list(env: &Environment, count: usize, list: Span) -> bool
    ensures { result ≡ bad_list count (model env.now).pool list }
{
    list.start as usize + list.count as usize > env.pool.len()
        || some_absent(count, list.of(env.pool))
}

// Whether a list of the scope is bad.
fn bad_scope(env: &Environment, scope: Scope) -> bool
    ensures { result ≡ bad_scope (length (model env.now).identifiers) (model env.now).pool scope }
{
    let count = env.identifiers.len();
    bad_list(env, count, scope.dependencies)
        || bad_list(env, count, scope.declarations)
        || bad_list(env, count, scope.reassignments)
}

// Whether a list of the function is bad: its nested functions are counted apart.
fn bad_function(env: &Environment, function: Function) -> bool
    ensures { result ≡ bad_function (length (model env.now).identifiers) (length (model env.now).functions) (model env.now).pool function }
{
    bad_list(env, env.identifiers.len(), function.parameters)
        || bad_list(env, env.functions.len(), function.nested)
}

// Whether a list of some scope is bad.
fn some_bad_scope(env: &Environment) -> bool
    ensures { result ≡ list_any (bad_scope (length (model env.now).identifiers) (model env.now).pool) (model env.now).scopes }
{
    env.scopes.iter().any(|scope| bad_scope(env, *scope))
}

// Whether a list of some function is bad.
fn some_bad_function(env: &Environment) -> bool
    ensures { result ≡ list_any (bad_function (length (model env.now).identifiers) (length (model env.now).functions) (model env.now).pool) (model env.now).functions }
{
    env.functions
        .iter()
        .any(|function| bad_function(env, *function))
}

// Whether a list of a scope, of a function or of the own parameters is bad.
fn bad_lists(env: &Environment, parameters: Span) -> bool
    ensures { result ≡ bad_lists (model env.now) parameters }
{
    some_bad_scope(env)
        || some_bad_function(env)
        || bad_list(env, env.identifiers.len(), parameters)
}

// How many identifiers have no name.
fn count_unnamed(identifiers: &[Identifier]) -> usize
    ensures { result ≡ unnamed identifiers.now }
{
    identifiers
        .iter()
        .filter(|identifier| identifier.is_unnamed())
        .count()
}

// Whether the journal lacks a free row for each identifier that has no name.
fn no_room(env: &Environment) -> bool
    ensures { result ≡ no_room (model env.now) }
{
    env.count > env.journal.len() || env.journal.len() - env.count < count_unnamed(env.identifiers)
}

// Whether the scratch lacks a work row for an identifier or a mark for a function.
fn little_scratch(env: &Environment, scratch: &Scratch) -> bool
    ensures { result ≡ little_scratch (model env.now) (noted scratch.now) }
{
    scratch.work.len() < env.identifiers.len() || scratch.marks.len() < env.functions.len()
}

// What is wrong with the tables, the own parameters or the scratch.
pub fn check_tables(env: &Environment, scratch: &Scratch, parameters: Span) -> Result<(), Refusal>
    ensures { result ≡ answered (tables_refusal (model env.now) (noted scratch.now) parameters) tt }
{
    if passes_limit(env, parameters) {
        return Err(Refusal::Limit);
    }
    if some_bad_row(env.identifiers) {
        return Err(Refusal::Row);
    }
    if bad_lists(env, parameters) {
        return Err(Refusal::List);
    }
    if no_room(env) {
        return Err(Refusal::Journal);
    }
    if little_scratch(env, scratch) {
        return Err(Refusal::Scratch);
    }
    Ok(())
}
