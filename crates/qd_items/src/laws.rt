//! The laws of reading, as contracts of functions that do nothing.

ghost use Rattle.qd_items.specs.Deciding.{SomeEnd, OneEnd, DecidedEnd, DecidedLines};
ghost use Rattle.qd_items.specs.Steps.{HungryReads};

/// Each text decides how its reading ends.
pub fn some_end()
    ensures { SomeEnd }
{}

/// A text decides one end, and one list of lines that are judged before it.
pub fn one_end()
    ensures { OneEnd }
{}

/// Where no fault was counted, the text alone decides how it ends, and which lines are judged; but for want of memory.
pub fn decided_end()
    ensures { DecidedEnd }
{}

/// At any time the lines judged so far are the first of those that the text decides.
pub fn decided_lines()
    ensures { DecidedLines }
{}

/// A step of a hungry reader reads: it takes bytes off the source, finds its end, or a read fails. It wants no memory.
pub fn hungry_reads()
    ensures { HungryReads }
{}
