//! The laws of tapes and scripts, as contracts of functions that do nothing.

ghost use Rattle.qd_tape.specs.Reading.{IsReadAsSaid, IsScriptRead, IsScriptWhole, IsWrittenAsSaid};

/// What a tape says of items that came one after another is the items, and before them the times at which they came. What is
/// written of them is the lines of that, and a reader of a file reads those lines as what the tape says, wherever the items
/// alone may follow one another.
pub fn tape_again()
    ensures written { IsWrittenAsSaid }
    ensures read { IsReadAsSaid }
{}

/// A reader of a file reads each line of a generated script as its item, and comes to END with exactly the items of the script.
pub fn script_again()
    ensures read { IsScriptRead }
    ensures whole { IsScriptWhole }
{}
