//! A law of engines that read, as the contract of a function that does nothing.

ghost use Rattle.qd_session.specs.Laws.{EndsAtOnce};

/// An engine that goes on has something left to do: where its text is ended, a call is due.
pub fn ends_at_once()
    ensures { EndsAtOnce }
{}
