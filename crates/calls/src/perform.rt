ghost use Rattle.std.specs.Prelude.{◌≡◌, ℕ, min, map, length, take, drop};
ghost use Rattle.hir.specs.Environments.{model};
ghost use Rattle.hir.specs.Scratches.{noted};
ghost use Rattle.reactive.specs.Rows.{Reading};
ghost use Rattle.calls.specs.Histories.{world, Follows};
ghost use Rattle.calls.specs.Promise.{Performed};

use crate::gifts::{give, look, spell};
use crate::requests::{Answer, Reply, Request, RequestError};
use crate::run::run;
use hir::environment::Environment;
use hir::scratch::Scratch;
use naming::naming::Naming;
use reactive::source::TreeSource;

// Makes one call. What it may alter is lent part by part: a struct around the parts would need a clause for each that its reference stays the same.
fn call<S: TreeSource, N: Naming>(
    env: &mut Environment,
    scratch: &mut Scratch,
    trees: &mut [S],
    naming: &N,
    text: &mut [u8],
    request: Request,
) -> Answer
    ensures { Follows (N.Naming.text naming.now)
        (world (model env.old) (noted scratch.old) (map S.TreeSource.reading trees.old) text.old) request result
        (world (model env.new) (noted scratch.new) (map S.TreeSource.reading trees.new) text.new) }
{
    match request {
        Request::Run(tree, parameters) => {
            if tree >= trees.len() {
                return Err(RequestError::NoTree);
            }
            // by index, since nothing is known of the trees behind a `get_mut`
            let (place, count) = run(env, scratch, &mut trees[tree], parameters)?;
            Ok(Reply::Ran(place, count))
        }
        Request::Give(id) => {
            give(env, id)?;
            Ok(Reply::Given)
        }
        Request::Look(id) => Ok(Reply::Tag(look(env, id)?)),
        Request::Spell(id) => Ok(Reply::Length(spell(env, id, naming, text)?)),
    }
}

// Makes the calls of a list in order, as many as there is room for answers, and answers how many.
pub fn perform<S: TreeSource, N: Naming>(
    env: &mut Environment,
    scratch: &mut Scratch,
    trees: &mut [S],
    naming: &N,
    text: &mut [u8],
    requests: &[Request],
    answers: &mut [Answer],
) -> usize
    ensures count { result ≡ min (length requests.now) (length answers.old) }
    ensures promise { Performed (N.Naming.text naming.now)
        (world (model env.old) (noted scratch.old) (map S.TreeSource.reading trees.old) text.old)
        (take result requests.now) (take result answers.new)
        (world (model env.new) (noted scratch.new) (map S.TreeSource.reading trees.new) text.new) }
    ensures others { drop result answers.new ≡ drop result answers.old }
{
    let count = requests.len().min(answers.len());
    // By index: nothing is known of the answers behind an `iter_mut` in a `zip`.
    for i in 0..count {
        answers[i] = call(env, scratch, trees, naming, text, requests[i]);
    }
    count
}
