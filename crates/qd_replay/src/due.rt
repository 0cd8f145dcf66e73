//! The calls of a group are made.
ghost use Rattle.std.specs.Prelude.{◌≡◌, ◌<◌, [], true, false, All, length};
ghost use Rattle.qd_calls.specs.Dues.{IsDue};
ghost use Rattle.qd_path.specs.Lists.{Lists, AreOf};
ghost use Rattle.qd_replay.specs.Steps.{MakesFirst, MakesAll};

use qd_calls::{Reaction, make};
use qd_hub::Hub;
use qd_items::Limit;
use qd_path::Asked;

/// Why a call was not granted.
#[derive(Clone, Copy, Drop)]
pub enum Refusal {
    TooMany(Limit),
    /// The history's count of commits stands at its end.
    Spent,
    NoMemory,
}

/// Makes the first of the calls that are due. None where it was granted.
fn make_first<H: Hub>(hub: &mut H, due: &mut Vec<Asked>) -> Option<Refusal>
    requires alone { H.is_alone hub.old }
    requires some { due.old.items ≡ [] → ⊥ }
    requires due { All (IsDue (H.stripes hub.old)) due.old.items }
    ensures same { (H.home hub.new ≡ H.home hub.old) × (H.stripes hub.new ≡ H.stripes hub.old) }
    ensures alone { H.is_alone hub.new }
    ensures due { All (IsDue (H.stripes hub.old)) due.new.items }
    ensures fewer { length due.new.items < length due.old.items }
    ensures makes { (l : Lists) → AreOf (H.stripes hub.old) (H.ticker hub.old) (H.stream hub.old) (H.history hub.old) l
        → (m : Lists) × AreOf (H.stripes hub.old) (H.ticker hub.new) (H.stream hub.new) (H.history hub.new) m
        × MakesFirst (H.stripes hub.old) due.old.items due.new.items result l m }
{
    let asked = due.remove(0);
    match make(hub, asked) {
        Reaction::Done => None,
        Reaction::TooMany(limit) => Some(Refusal::TooMany(limit)),
        Reaction::Full => Some(Refusal::Spent),
        Reaction::NoMemory => Some(Refusal::NoMemory),
        // A hub that is alone always answers.
        Reaction::Spent
        | Reaction::Busy {
            first: _,
            then: _,
            back: _,
        } => unreachable!(),
    }
}

/// Whether no call is due.
fn none_due(due: &[Asked]) -> bool
    ensures yes { result ≡ true → due.now ≡ [] }
    ensures no { result ≡ false → due.now ≡ [] → ⊥ }
{
    due.is_empty()
}

/// Makes the calls that are due, in order, up to one that is refused. None where all were granted.
pub fn make_all<H: Hub>(hub: &mut H, due: &mut Vec<Asked>) -> Option<Refusal>
    requires alone { H.is_alone hub.old }
    requires due { All (IsDue (H.stripes hub.old)) due.old.items }
    ensures same { (H.home hub.new ≡ H.home hub.old) × (H.stripes hub.new ≡ H.stripes hub.old) }
    ensures alone { H.is_alone hub.new }
    ensures makes { (l : Lists) → AreOf (H.stripes hub.old) (H.ticker hub.old) (H.stream hub.old) (H.history hub.old) l
        → (m : Lists) × AreOf (H.stripes hub.old) (H.ticker hub.new) (H.stream hub.new) (H.history hub.new) m
        × MakesAll (H.stripes hub.old) due.old.items result l m }
{
    // What holds of all lists of a hub, it tells with the number of its stripes.
    let _ = hub.stripes();
    'calls: loop {
        if none_due(due) {
            return None;
        }
        match make_first(hub, due) {
            None => {}
            Some(refusal) => return Some(refusal),
        }
    }
}
