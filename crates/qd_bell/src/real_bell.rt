ghost use Rattle.std.specs.Prelude.{◌≡◌, ◌<◌, IfOk};
ghost use Rattle.std.specs.Arc.{arc_value};
ghost use Rattle.qd_bell.specs.Places.{place_count};

use crate::bell::{Bell, Rung};
use crate::tower::Tower;
use std::alloc::AllocError;
use std::sync::{Arc, Wait};

/// The bell of one side of a link. Each side of the link has one of its own; one side alone waits.
pub struct RealBell {
    tower: Arc<Tower>,
    link: usize,
    /// The rings up to the last wait.
    seen: u64,
    /// Whether it counts among those that wait at times.
    is_counted: bool,
    shuts: u64,
    made: u64,
    ghost has_place: { link < place_count (arc_value tower) },
}

impl RealBell {
    /// A bell of this link, from 0.
    pub fn new(tower: &Arc<Tower>, link: usize) -> Result<RealBell, AllocError>
        requires { link < place_count (arc_value tower.now) }
        ensures shuts { IfOk result (λ b. ⟦<RealBell as Bell>⟧.shuts b ≡ 0) }
        ensures made { IfOk result (λ b. ⟦<RealBell as Bell>⟧.made b ≡ 0) }
    {
        Ok(RealBell {
            tower: Arc::try_clone(tower)?,
            link,
            seen: 0,
            is_counted: false,
            shuts: 0,
            made: 0,
        })
    }
}

impl Bell for RealBell {
    ghost shuts = { λ b. b.shuts };

    ghost made = { λ b. b.made };

    fn wait<R: Wait>(&mut self, rt: &R) -> Rung {
        if !self.is_counted {
            self.is_counted = true;
            self.tower.enter();
        }
        if self.tower.wait(rt, self.link, &mut self.seen) {
            self.is_counted = false;
            self.tower.leave();
            self.shuts = self.shuts.saturating_add(1);
            return Rung::Shut;
        }
        Rung::Ring
    }

    fn ring<R: Wait>(&mut self, rt: &R) {
        self.tower.ring(rt);
    }

    fn shut<R: Wait>(&mut self, _rt: &R) {
        self.tower.shut(self.link);
        self.shuts = self.shuts.saturating_add(1);
        self.made = self.made.saturating_add(1);
    }
}

/// A side that is gone waits no more.
impl Drop for RealBell {
    fn drop(self) {
        let Self {
            tower,
            link: _,
            seen: _,
            is_counted,
            shuts: _,
            made: _,
        } = self;
        if is_counted {
            tower.leave();
        }
    }
}
