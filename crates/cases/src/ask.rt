// The calls on a case.
use crate::case::Case;
use crate::fault::Fault;
use crate::tree::Tree;
use calls::gifts::{give, look, spell};
use calls::perform::perform;
use calls::requests::{Answer, Reply, RequestError};
use calls::run::run;
use either::Either;
use hir::ids::IdentifierId;
use naming::decimal::Decimal;
use naming::naming::Naming;
use reactive::source::TreeSource;
use reactive::table::TableSource;

// A tree as a source of the one sort, and another as one of the other.
fn mixed<'a>(first: &'a Tree, second: &'a Tree) -> [Either<TableSource<'a>, TableSource<'a>>; 2] {
    [Either::Left(first.source()), Either::Right(second.source())]
}

// Each of the four calls by itself: as lists for `perform` each would take a list of one request and one of one answer.
impl<'a> Case<'a> {
    // Runs over a tree. Its source stands one row in, so that the run has to rewind it.
    pub fn run(&mut self, place: usize) -> Result<Answer, Fault> {
        let mut source = self.trees.get(place).ok_or(Fault::Line)?.source();
        let _ = source.next();
        let (mut env, mut scratch) = self.state.lend(&self.tables);
        let ran = run(&mut env, &mut scratch, &mut source, self.parameters);
        self.state.count = env.count;
        if source.position != 0 {
            return Err(Fault::NotRewound);
        }
        let answer = ran.map(|(place, count)| Reply::Ran(place, count));
        Ok(answer.map_err(RequestError::from))
    }

    // Gives an identifier a name.
    pub fn give(&mut self, id: IdentifierId) -> Answer {
        let (mut env, _) = self.state.lend(&self.tables);
        give(&mut env, id)?;
        Ok(Reply::Given)
    }

    // Looks at the tag of an identifier.
    pub fn look(&mut self, id: IdentifierId) -> Answer {
        let (env, _) = self.state.lend(&self.tables);
        Ok(Reply::Tag(look(&env, id)?))
    }

    // Spells the promoted name of an identifier.
    pub fn spell<N: Naming>(&mut self, id: IdentifierId, naming: &N, buffer: &mut [u8]) -> Answer {
        let (env, _) = self.state.lend(&self.tables);
        Ok(Reply::Length(spell(&env, id, naming, buffer)?))
    }

    // Makes the calls of the requests over the first two trees, each as another sort of source.
    pub fn perform(&mut self, buffer: &mut [u8], answers: &mut [Answer]) -> Result<usize, Fault> {
        let [first, second, ..] = self.trees.as_slice() else {
            return Err(Fault::Line);
        };
        let mut sources = mixed(first, second);
        let (mut env, mut scratch) = self.state.lend(&self.tables);
        let made = perform(
            &mut env,
            &mut scratch,
            &mut sources,
            &Decimal,
            buffer,
            &self.requests,
            answers,
        );
        self.state.count = env.count;
        Ok(made)
    }
}
