//! The buffers in which stripes give.

ghost use Rattle.std.specs.Prelude.{◌≡◌, Some, None};
ghost use Rattle.qd_path.specs.declared.side.Side.{Side};
ghost use Rattle.qd_replies.specs.Asked.{empty, out_op, lent_given, lent_wants};

use qd_buffer::Buffer;
use qd_path::Side;
use qd_sub::{Op, Want};

/// The most items that one call asks for.
pub const MOST: u16 = 256;

fn lend<T: Copy>(slot: &mut Option<Buffer<T>>) -> Buffer<T>
    requires { slot.old ≡ Some empty }
    ensures buffer { result ≡ empty }
    ensures slot { slot.new ≡ None }
{
    match slot.take() {
        Some(buffer) => buffer,
        None => unreachable!(),
    }
}

/// Keeps a buffer for the next call, without its items.
pub fn keep<T: Copy>(slot: &mut Option<Buffer<T>>, mut buffer: Buffer<T>)
    ensures { buffer.room ≡ 256 → slot.new ≡ Some empty }
{
    buffer.clear();
    *slot = Some(buffer);
}

/// The call that asks for what is due to the other end of a link.
pub fn op_of<P: Copy, T: Copy>(
    side: Side,
    given: &mut Option<Buffer<T>>,
    wants: &mut Option<Buffer<Want>>,
) -> Op<P, T>
    requires given { given.old ≡ Some empty }
    requires wants { wants.old ≡ Some empty }
    ensures op { result ≡ out_op side }
    ensures given { given.new ≡ lent_given side }
    ensures wants { wants.new ≡ lent_wants side }
{
    match side {
        Side::Down(agent) => Op::Take {
            agent,
            max: MOST,
            out: lend(given),
        },
        Side::Up(watcher) => Op::Watch {
            watcher,
            max: MOST,
            out: lend(wants),
        },
    }
}

/// Takes the buffer back out of a call that was not made.
pub fn take_back<P: Copy, T: Copy>(
    op: Op<P, T>,
    given: &mut Option<Buffer<T>>,
    wants: &mut Option<Buffer<Want>>,
)
    ensures given { (side : Side) → op ≡ out_op side → given.old ≡ lent_given side → given.new ≡ Some empty }
    ensures wants { (side : Side) → op ≡ out_op side → wants.old ≡ lent_wants side → wants.new ≡ Some empty }
{
    match op {
        Op::Take {
            agent: _,
            max: _,
            out,
        } => keep(given, out),
        Op::Watch {
            watcher: _,
            max: _,
            out,
        } => keep(wants, out),
        _ => {}
    }
}
