// Calls as values, for lists of them.
ghost use Rattle.std.specs.Prelude.{◌≡◌};
ghost use Rattle.calls.specs.declared.requests.RequestError.TheVariants.{Refused};

use hir::ids::IdentifierId;
use hir::refusal::Refusal;
use hir::span::Span;

// One call: a run over one of the trees, with own parameters; a gift, a look or a spelling.
#[derive(Clone, Copy)]
pub enum Request {
    Run(usize, Span),
    Give(IdentifierId),
    Look(IdentifierId),
    Spell(IdentifierId),
}

// What an accepted call answered: a run the place of its first journal row and their count, a look a tag as it stands, a spelling a length.
#[derive(Clone, Copy)]
pub enum Reply {
    Ran(usize, usize),
    Given,
    Tag(u8),
    Length(usize),
}

// Why a request has no reply: its call is refused, or no tree has the number asked for, so that no call was made.
#[derive(Clone, Copy)]
pub enum RequestError {
    Refused(Refusal),
    NoTree,
}

// What a request got.
pub type Answer = Result<Reply, RequestError>;

// By hand: a derive writes no contract.
impl From<Refusal> for RequestError {
    ghost from_gives = { λ refusal error. error ≡ Refused refusal };

    fn from(refusal: Refusal) -> RequestError {
        RequestError::Refused(refusal)
    }
}
