//! A net that never fails.
ghost use Rattle.std.specs.Prelude.{◌≡◌, None};
ghost use Rattle.qd_net.specs.Meeting.{net_at_first, one_more};

use crate::counted::{Counted, CountedSink, CountedSource};
use crate::net::{Conn, Net, NoMemory};
use qd_outside::{SoundSink, SoundSource};
use std::alloc::Global;

/// A connection whose peer sends nothing, and on which nothing that is written is kept.
#[derive(Drop)]
pub struct SoundConn {
    alloc: Global,
}

impl Conn for SoundConn {
    ghost use Rattle.std.specs.Prelude.{None};

    type In = Counted<SoundSource>;

    type Out = Counted<SoundSink>;

    ghost list = { λ _. None };

    fn halves(
        self,
        _alloc: Global,
    ) -> Result<(Counted<SoundSource>, Counted<SoundSink>), NoMemory> {
        let input = SoundSource::new(Vec::new(self.alloc));
        Ok((Counted::new(input), Counted::new(SoundSink::new())))
    }
}

/// A net of which no call fails.
#[derive(Drop)]
pub struct SoundNet {
    alloc: Global,
    opened: u64,
    hang_up_faults: u64,
}

impl SoundNet {
    /// A net that gave no connection yet.
    pub fn new(alloc: Global) -> SoundNet
        ensures { ⟦<SoundNet as Net>⟧.told result ≡ net_at_first None None None }
    {
        SoundNet {
            alloc,
            opened: 0,
            hang_up_faults: 0,
        }
    }

    fn connect(&mut self) -> SoundConn
        ensures { self.new ≡ record self.old { opened = one_more self.old.opened } }
    {
        self.opened = self.opened.saturating_add(1);
        SoundConn { alloc: self.alloc }
    }
}

impl Net for SoundNet {
    ghost use Rattle.std.specs.Prelude.{None};

    type Conn = SoundConn;

    ghost told = { λ s. record {
      coming = None;
      ended = None;
      asked = None;
      opened = s.opened;
      faults = 0;
      hang_up_faults = s.hang_up_faults;
    } };

    fn listen(&mut self, _addr: &str) -> bool {
        true
    }

    fn accept(&mut self) -> Option<SoundConn> {
        Some(self.connect())
    }

    fn dial(&mut self, _addr: &str) -> Option<SoundConn> {
        Some(self.connect())
    }

    fn hang_up(&mut self, input: Counted<SoundSource>, output: Counted<SoundSink>) {
        if input.faults() > 0 || output.faults() > 0 {
            self.hang_up_faults = self.hang_up_faults.saturating_add(1);
        }
    }
}
