//! How serving ends, and what is told of each link.

use qd_link::OutEnd;
use qd_session::InEnd;

/// How serving ended. Of several faults it is the first that happened.
#[derive(Clone, Copy, Debug)]
pub enum ServeEnd {
    /// All links were served, and each is told of.
    Done,
    /// A call that listens or accepts failed, or a start of a job.
    NetFault,
    /// A link could not be told of.
    WriteFault,
    NoMemory,
}

/// What is told of a link that ran.
#[derive(Clone, Copy, Debug)]
pub struct Told {
    /// The number of its connection, from 0 on, in the order in which they were accepted.
    pub link: u8,
    pub in_end: InEnd,
    pub out_end: OutEnd,
}
