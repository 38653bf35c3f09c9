// One of two sources is a source, so that a list of sources may mix them.
ghost use Rattle.either.specs.Either.{either};

use crate::row::RowHead;
use crate::source::TreeSource;
use either::Either;
use hir::ids::IdentifierId;

impl<L: TreeSource, R: TreeSource> TreeSource for Either<L, R> {
    ghost reading = { either L.TreeSource.reading R.TreeSource.reading };

    fn rewind(&mut self) {
        match self {
            Either::Left(source) => source.rewind(),
            Either::Right(source) => source.rewind(),
        }
    }

    fn next(&mut self) -> Option<RowHead> {
        match self {
            Either::Left(source) => source.next(),
            Either::Right(source) => source.next(),
        }
    }

    fn operand(&self, i: usize) -> Option<IdentifierId> {
        match self {
            Either::Left(source) => source.operand(i),
            Either::Right(source) => source.operand(i),
        }
    }

    fn mark(&self, i: usize) -> Option<IdentifierId> {
        match self {
            Either::Left(source) => source.mark(i),
            Either::Right(source) => source.mark(i),
        }
    }
}
