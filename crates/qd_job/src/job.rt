use std::snapshot::Snapshot;
use std::sync::Wait;
use std::thread::{Promise, Threads};

/// Work that gives one result. It may wait for others.
pub trait Job: Drop {
    ghost use denote.Param.Send.{IsSync};

    type Out: Drop + Send + 'static;

    /// Which results it may give.
    ghost may_give: { Self → Self.Out → Type 0 };

    /// Does the work, in threads of its own where it has several sides. Whoever has the bound `R: Sync` meets the condition,
    /// which says it to a body that starts a thread.
    fn run<R: Threads + Wait + Sync>(self, rt: &R) -> Self::Out
        requires { IsSync R.row }
        ensures { may_give self result };
}

/// The promise that a job gives a result that it may give. It has no bytes.
#[derive(Drop)]
pub struct Gives<J> {
    pub job: Snapshot<J>,
}

impl<J: Job> Promise<J::Out> for Gives<J> {
    ghost kept_by = { λ p r. J.may_give p.job.value r };
}
