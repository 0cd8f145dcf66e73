ghost use Rattle.std.specs.Prelude.{◌≡◌};
ghost use Rattle.qd_job.specs.Starting.{Starts, Fails};
ghost use denote.Param.Send.{IsSync};

use crate::job::{Gives, Job};
use crate::spawner::Spawner;
use std::snapshot::Snapshot;
use std::sync::Wait;
use std::thread;
use std::thread::{Promise, PromisedHandle, Threads};

/// The answer of a start.
#[derive(Drop)]
pub enum Start<T, P: Promise<T>> {
    /// It runs. Joining the handle gives a result that was promised, if it returns.
    Running(PromisedHandle<T, P>),
    /// It did not start, and was dropped.
    Back,
}

/// Calls `f` in a thread of its own.
pub fn start_with<
    W: Spawner,
    R: Threads + Wait + Copy + Send + Sync + 'static,
    P: Promise<T> + Drop,
    F: FnOnce() -> T + Send + Drop + 'static,
    T: Send + Drop + 'static,
>(threads: &mut W, rt: &R, promise: P, f: F) -> Start<T, P>
    requires runs { F.pre f }
    requires keeps { (r : T) → F.post f r → P.kept_by promise r }
    ensures running { (h : _) → result ≡ Start.Running h → (h.promise ≡ promise) × Starts (W.told threads.old) (W.told threads.new) }
    ensures back { result ≡ Start.Back → Fails (W.told threads.old) (W.told threads.new) }
{
    if threads.admits() {
        match thread::spawn_with(rt, promise, f) {
            Ok(handle) => {
                threads.note(true);
                return Start::Running(handle);
            }
            Err(_) => {}
        }
    }
    threads.note(false);
    Start::Back
}

/// Runs a job in a thread of its own.
pub fn start_job<
    W: Spawner,
    R: Threads + Wait + Copy + Send + Sync + 'static,
    J: Job + Send + 'static,
>(threads: &mut W, rt: &R, job: J) -> Start<J::Out, Gives<J>>
    ensures running { (h : _) → result ≡ Start.Running h → (h.promise.job.value ≡ job) × Starts (W.told threads.old) (W.told threads.new) }
    ensures back { result ≡ Start.Back → Fails (W.told threads.old) (W.told threads.new) }
{
    let own = *rt;
    let promise = Gives {
        job: Snapshot::of(&job),
    };
    let work = move || -> J::Out
        requires { IsSync R.row }
        ensures { J.may_give job result }
    { job.run(&own) };
    start_with(threads, rt, promise, work)
}
