ghost use Rattle.std.specs.Prelude.{◌≡◌};
ghost use Rattle.hir.specs.Environments.{model};
ghost use Rattle.hir.specs.Refusals.{answered};
ghost use Rattle.calls.specs.Steps.{GiveStep, LookStep, SpellStep, look_refusal};

use hir::environment::{Environment, MOST_IDENTIFIERS};
use hir::ids::IdentifierId;
use hir::refusal::Refusal;
use hir::tag::Tag;
use naming::letter::Letter;
use naming::naming::Naming;

// The place of an identifier's row, where the environment keeps the limit and has the identifier.
fn place_of(env: &Environment, id: IdentifierId) -> Result<usize, Refusal>
    ensures { result ≡ answered (look_refusal (model env.now) id) id.0 }
{
    if env.identifiers.len() > MOST_IDENTIFIERS {
        return Err(Refusal::Limit);
    }
    let place = id.0 as usize;
    if place >= env.identifiers.len() {
        return Err(Refusal::Absent);
    }
    Ok(place)
}

// Gives an identifier that has no name an author's name.
pub fn give(env: &mut Environment, id: IdentifierId) -> Result<(), Refusal>
    ensures { GiveStep (model env.old) id result (model env.new) }
{
    let i = place_of(env, id)?;
    let row = &mut env.identifiers[i];
    if !row.is_unnamed() {
        return Err(Refusal::Named);
    }
    row.tag = Tag::Author as u8;
    Ok(())
}

// Answers the tag of an identifier: a byte, since a row may hold one that is no `Tag`, and looking tests none.
pub fn look(env: &Environment, id: IdentifierId) -> Result<u8, Refusal>
    ensures { LookStep (model env.now) id result }
{
    let i = place_of(env, id)?;
    Ok(env.identifiers[i].tag)
}

// Writes the promoted name of an identifier, and answers its length.
pub fn spell<N: Naming>(
    env: &Environment,
    id: IdentifierId,
    naming: &N,
    buffer: &mut [u8],
) -> Result<usize, Refusal>
    ensures { SpellStep (N.Naming.text naming.now) (model env.now) id buffer.old result buffer.new }
{
    let i = place_of(env, id)?;
    let row = env.identifiers[i];
    if row.declaration.0 as usize >= env.identifiers.len() {
        return Err(Refusal::Row);
    }
    let letter = match Tag::try_from(row.tag) {
        Ok(Tag::Lower) => Letter::Lower,
        Ok(Tag::Upper) => Letter::Upper,
        Ok(Tag::Unnamed | Tag::Author) => return Err(Refusal::NotPromoted),
        Err(_) => return Err(Refusal::Row),
    };
    naming.write(letter, row.declaration.0 as u16, buffer)
}
