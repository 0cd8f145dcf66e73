//! A row, its passes and the states that one thread has may cross threads, whatever the machine is.
use crate::own::OwnRow;
use crate::row::{Row, RowPass};
use qd_gate::Machine;

fn may_be_sent<T: Send>(_value: &T) {}

fn may_be_shared<T: Sync>(_value: &T) {}

// Proved for each machine: a row, its passes and a row of states may be sent to a thread, and threads may share a row.
fn may_cross<M: Machine>(row: &Row<M>, passes: &RowPass<M>, own: &OwnRow<M>) {
    may_be_sent(row);
    may_be_sent(passes);
    may_be_sent(own);
    may_be_shared(row);
}
