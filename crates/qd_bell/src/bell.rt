use std::sync::Wait;

/// The answer of a wait.
#[derive(Clone, Copy)]
pub enum Rung {
    /// Something may have come. It may be answered at any time, and leads to another round.
    Ring,
    /// The link was shut.
    Shut,
}

/// What the writing side of a link waits on. A ring is meant to wake all that wait, and a shut those of its link; no clause
/// says so.
pub trait Bell {
    ghost use Rattle.std.specs.Prelude.{ℕ, ◌≡◌};
    ghost use Rattle.qd_bell.specs.Ringing.{Rises, WaitTells, one_more};

    /// How many shuts of its link this bell has seen. The count stays at 2^64 - 1.
    ghost shuts: { Self → ℕ };

    /// How many calls of `shut` were made on this very bell. The count stays at 2^64 - 1.
    ghost made: { Self → ℕ };

    /// Waits for a ring or for the shut of the link.
    fn wait<R: Wait>(&mut self, rt: &R) -> Rung
        ensures tells { WaitTells result (shuts self.old) (shuts self.new) }
        ensures made { made self.new ≡ made self.old };

    /// Something was put.
    fn ring<R: Wait>(&mut self, rt: &R)
        ensures { (shuts self.new ≡ shuts self.old) × (made self.new ≡ made self.old) };

    /// The link is shut.
    fn shut<R: Wait>(&mut self, rt: &R)
        ensures shuts { Rises (shuts self.old) (shuts self.new) }
        ensures made { made self.new ≡ one_more (made self.old) };
}
