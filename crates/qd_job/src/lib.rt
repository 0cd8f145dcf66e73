//! Jobs, and what starts them in threads of their own.
//!
//! A [`Job`] says which results it may give. [`start_job`] starts it, [`start_with`] any closure with a promise; where the
//! thread's handle is joined, its result is one that was promised. A [`Spawner`] counts the starts, and says which are to fail:
//! [`RealSpawner`] none, [`ListSpawner`] those of its list. Starting is no method of it, since a thread that is started inside a
//! method of an `impl` may not rest on bounds that have methods, as a link's job does.
#![tactic(auto)]

mod job;
mod list_spawner;
mod real_spawner;
mod spawner;
mod start;

pub use job::{Gives, Job};
pub use list_spawner::ListSpawner;
pub use real_spawner::RealSpawner;
pub use spawner::Spawner;
pub use start::{Start, start_job, start_with};
