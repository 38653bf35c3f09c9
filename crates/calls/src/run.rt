ghost use Rattle.std.specs.Prelude.{◌≡◌, ◌||◌, None};
ghost use Rattle.std.specs.List.{list_any};
ghost use Rattle.hir.specs.Environments.{model};
ghost use Rattle.hir.specs.Scratches.{noted, tables};
ghost use Rattle.hir.specs.Refusals.{answered};
ghost use Rattle.hir.specs.Spans.{ident, identifiers_in};
ghost use Rattle.reactive.specs.Rows.{Reading, rewound};
ghost use Rattle.reactive.specs.Lvalues.{some_without_temporary};
ghost use Rattle.promote.specs.Identifier.{is_unnamed};
ghost use Rattle.checks.specs.Rows.{run_refusal};
ghost use Rattle.reasons.specs.Laws.{tables_can_name};
ghost use Rattle.reasons.specs.Passes.{passed};
ghost use Rattle.calls.specs.Steps.{RunStep};

use checks::rows::check_rows;
use checks::tables::check_tables;
use collect::promotable::collect_promotable;
use hir::environment::Environment;
use hir::ids::IdentifierId;
use hir::refusal::Refusal;
use hir::scratch::Scratch;
use hir::span::Span;
use instances::instances::promote_all_instances;
use interposed::interposed::promote_interposed;
use promote::temporaries::promote_temporaries;
use reactive::source::TreeSource;

// The passes, over tables and rows that passed the checks. They take what `run` is lent, as it is: see `Scratch`.
fn promote_used_temporaries<S: TreeSource>(
    env: &mut Environment,
    scratch: &mut Scratch,
    source: &mut S,
    parameters: Span,
)
    requires { run_refusal (model env.old) (noted scratch.old) parameters (S.TreeSource.reading source.old).rows ≡ None }
    ensures after { tables env.new scratch.new ≡ passed (tables env.old scratch.old) parameters (S.TreeSource.reading source.old).rows }
    ensures source { S.TreeSource.reading source.new ≡ rewound (S.TreeSource.reading source.old) }
{
    scratch.reset();
    collect_promotable(source, env, scratch);
    promote_temporaries(source, env, scratch, parameters);
    promote_interposed(source, env, scratch, parameters);
    promote_all_instances(source, env, scratch, parameters);
}

// What is wrong with the tables, the parameters, scratch or the rows, and else whether some row is an Instruction whose lvalue is absent or named.
fn check_run<S: TreeSource>(
    env: &Environment,
    scratch: &Scratch,
    source: &mut S,
    parameters: Span,
) -> Result<bool, Refusal>
    ensures value { result ≡ answered (run_refusal (model env.now) (noted scratch.now) parameters (S.TreeSource.reading source.old).rows) (some_without_temporary (model env.now) (S.TreeSource.reading source.old).rows) }
    ensures source { S.TreeSource.reading source.new ≡ rewound (S.TreeSource.reading source.old) }
{
    source.rewind();
    check_tables(env, scratch, parameters)?;
    check_rows(source, env, scratch)
}

// Whether some identifier of these numbers has no name.
fn some_lacks_name(env: &Environment, numbers: &[u32]) -> bool
    ensures { result ≡ list_any (λ n. is_unnamed (model env.now) (ident n)) numbers.now }
{
    numbers.iter().any(|n| env.lacks_name(IdentifierId(*n)))
}

// Whether some identifier of a list has no name.
fn some_unnamed(env: &Environment, list: Span) -> bool
    ensures { result ≡ list_any (is_unnamed (model env.now)) (identifiers_in (model env.now).pool list) }
{
    some_lacks_name(env, list.of(env.pool))
}

// Whether a run can name something: some Instruction's lvalue is absent or named, or there is a scope, a function or an own parameter without a name.
fn can_name(env: &Environment, parameters: Span, some_without: bool) -> bool
    ensures { result ≡ (some_without || tables_can_name (model env.now) parameters) }
{
    some_without
        || !env.scopes.is_empty()
        || !env.functions.is_empty()
        || some_unnamed(env, parameters)
}

// Names the temporaries that a reason covers, and answers the place of the first new journal row and their count.
// What it may alter is lent part by part: no struct of references could say that it gives each back.
pub fn run<S: TreeSource>(
    env: &mut Environment,
    scratch: &mut Scratch,
    source: &mut S,
    parameters: Span,
) -> Result<(usize, usize), Refusal>
    ensures step { RunStep (model env.old) (noted scratch.old) parameters (S.TreeSource.reading source.old).rows result (model env.new) (noted scratch.new) }
    ensures source { S.TreeSource.reading source.new ≡ rewound (S.TreeSource.reading source.old) }
{
    let some_without = check_run(env, scratch, source, parameters)?;
    let first = env.count;
    // Else nothing is named: `idle_runs_journal_nothing`.
    if can_name(env, parameters, some_without) {
        promote_used_temporaries(env, scratch, source, parameters);
    }
    Ok((first, env.count - first))
}
