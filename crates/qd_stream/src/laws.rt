//! What holds of every log of a stream.
ghost use Rattle.qd_stream.specs.Laws.{FewWait};

/// In a legal log at most `cap` items wait for an agent.
pub fn few_wait()
    ensures few { FewWait }
{}
