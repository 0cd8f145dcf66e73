ghost use Rattle.std.specs.Prelude.{◌≡◌, ◌⊎◌, map, string_bytes, List, ℕ, Option, Some, None, Ok, Err, IfSome, IfOk, IfErr};
ghost use Rattle.std.specs.IoError.{error_kind};
ghost use Rattle.qd_items.specs.declared.ends.RunEnd.{RunEnd};
ghost use Rattle.qd_outside.specs.Writing.{Gained};
ghost use Rattle.qd_scheme.specs.declared.defs.RecordDef.{RecordDef};
ghost use Rattle.qd_scheme_file.specs.declared.no_scheme.NoScheme.{NoScheme};
ghost use Rattle.qd_words.specs.Asking.{Asked, asks};
ghost use Rattle.qd_words.specs.Scripts.{asks_script};
ghost use Rattle.qd_words.specs.declared.script.ScriptAsk.{ScriptAsk};
ghost use Rattle.qd_outside.specs.Causes.{Rose};
ghost use Rattle.qds_tools.specs.declared.program_end.ProgramEnd.{ProgramEnd};
ghost use Rattle.qds_tools.specs.declared.program_end.ProgramEnd.TheVariants.{Usage, Refused, Ran};
ghost use Rattle.qds_tools.specs.Answers.{IsAnswer};
ghost use Rattle.qds_tools.specs.Commands.{LeadsTo, setting_of};
ghost use Rattle.qds_tools.specs.Program.{Ends, IsScheme, IsText, NoFault};
ghost use Rattle.qds_tools.specs.Scripting.{ScriptEnds, IsScriptDone};
ghost use Rattle.qds_tools.specs.Statuses.{Reports, end_without_words};

use crate::fault_line::write_fault;
use crate::program_end::ProgramEnd;
use crate::running::run_asked;
use crate::scripting::run_script;
use crate::status::Status;
use qd_items::RunEnd;
use qd_outside::{Files, Sink, Source};
use qd_words::{ask_of, script_ask_of};
use std::alloc::Global;
use std::io;

/// The program over handed-in objects: the words ask for a command, which reads a file or `input` and prints to `out`; a
/// line on a fault goes to `err`.
pub fn plain_main<F: Files, S: Source, K: Sink, E: Sink>(
    alloc: Global,
    words: &Vec<String>,
    files: &mut F,
    input: &mut S,
    out: &mut K,
    err: &mut E,
) -> Status
    // Words that ask for nothing are refused, and nothing is read or written but the line.
    ensures usage { asks (map string_bytes words.now.items) ≡ None → asks_script (map string_bytes words.now.items) ≡ None → (files.new ≡ files.old) × (input.new ≡ input.old) × (out.new ≡ out.old)
        × Reports Usage result (E.written err.old) (E.written err.new) (E.flushed err.new) (E.faults err.old) (E.faults err.new) }
    // What is asked ends in one of these ways, each with its cause, and the status and the line are those of the end.
    ensures run { (ask : Asked) → asks (map string_bytes words.now.items) ≡ Some ask → (end : ProgramEnd)
        × Ends ask end (record { files = F.told files.old; left = S.left input.old; reads = S.faults input.old; written = K.written out.old; flushed = K.flushed out.old; writes = K.faults out.old })
        (record { files = F.told files.new; left = S.left input.new; reads = S.faults input.new; written = K.written out.new; flushed = K.flushed out.new; writes = K.faults out.new })
        × Reports end result (E.written err.old) (E.written err.new) (E.flushed err.new) (E.faults err.old) (E.faults err.new) }
    // A scheme file that is refused is told, where no fault is counted, but for want of memory.
    ensures refused { (ask : Asked) (why : NoScheme) → asks (map string_bytes words.now.items) ≡ Some ask → IsScheme ask.scheme (F.told files.old) (Err why)
        → NoFault (record { files = F.told files.old; left = S.left input.old; reads = S.faults input.old; written = K.written out.old; flushed = K.flushed out.old; writes = K.faults out.old })
        (record { files = F.told files.new; left = S.left input.new; reads = S.faults input.new; written = K.written out.new; flushed = K.flushed out.new; writes = K.faults out.new })
        → Reports (Refused why) result (E.written err.old) (E.written err.new) (E.flushed err.new) (E.faults err.old) (E.faults err.new) ⊎ (result ≡ 5) }
    // Scheme and text alone decide how a run ends in which no fault is counted, and what it prints, but for want of memory.
    ensures decided { (ask : Asked) (defs : List RecordDef) (text : List ℕ) (printed : Option (List ℕ)) (end : RunEnd) → asks (map string_bytes words.now.items) ≡ Some ask
        → IsScheme ask.scheme (F.told files.old) (Ok defs) → LeadsTo ask.command (setting_of ask defs) text end printed
        → IsText ask.file (record { files = F.told files.old; left = S.left input.old; reads = S.faults input.old; written = K.written out.old; flushed = K.flushed out.old; writes = K.faults out.old }) text
        → NoFault (record { files = F.told files.old; left = S.left input.old; reads = S.faults input.old; written = K.written out.old; flushed = K.flushed out.old; writes = K.faults out.old })
        (record { files = F.told files.new; left = S.left input.new; reads = S.faults input.new; written = K.written out.new; flushed = K.flushed out.new; writes = K.faults out.new })
        → (Reports (Ran end) result (E.written err.old) (E.written err.new) (E.flushed err.new) (E.faults err.old) (E.faults err.new) × IfSome printed (Gained (K.written out.old) (K.written out.new))) ⊎ (result ≡ 5) }
    // A script that is asked for is printed: nothing is read, and the end has its cause.
    ensures script { (ask : ScriptAsk) → asks_script (map string_bytes words.now.items) ≡ Some ask → (files.new ≡ files.old) × (input.new ≡ input.old) × ((end : RunEnd)
        × ScriptEnds ask end (K.written out.old) (K.written out.new) (K.flushed out.old) (K.flushed out.new) (K.faults out.old) (K.faults out.new)
        × Reports (Ran end) result (E.written err.old) (E.written err.new) (E.flushed err.new) (E.faults err.old) (E.faults err.new)) }
    // It is printed whole where no fault of writing is counted, but for want of memory.
    ensures whole { (ask : ScriptAsk) → asks_script (map string_bytes words.now.items) ≡ Some ask → (Rose (K.faults out.old) (K.faults out.new) → ⊥)
        → IsScriptDone ask result (K.written out.old) (K.written out.new) (E.written err.old) (E.written err.new) (E.flushed err.new) (E.faults err.old) (E.faults err.new) }
{
    plain_main_seeded(alloc, 0, words, files, input, out, err)
}

/// The same, with the keys of the collectors hashed by a seed, on which nothing that is printed depends.
pub fn plain_main_seeded<F: Files, S: Source, K: Sink, E: Sink>(
    alloc: Global,
    seed: u64,
    words: &Vec<String>,
    files: &mut F,
    input: &mut S,
    out: &mut K,
    err: &mut E,
) -> Status
    // Words that ask for nothing are refused, and nothing is read or written but the line.
    ensures usage { asks (map string_bytes words.now.items) ≡ None → asks_script (map string_bytes words.now.items) ≡ None → (files.new ≡ files.old) × (input.new ≡ input.old) × (out.new ≡ out.old)
        × Reports Usage result (E.written err.old) (E.written err.new) (E.flushed err.new) (E.faults err.old) (E.faults err.new) }
    // What is asked ends in one of these ways, each with its cause, and the status and the line are those of the end.
    ensures run { (ask : Asked) → asks (map string_bytes words.now.items) ≡ Some ask → (end : ProgramEnd)
        × Ends ask end (record { files = F.told files.old; left = S.left input.old; reads = S.faults input.old; written = K.written out.old; flushed = K.flushed out.old; writes = K.faults out.old })
        (record { files = F.told files.new; left = S.left input.new; reads = S.faults input.new; written = K.written out.new; flushed = K.flushed out.new; writes = K.faults out.new })
        × Reports end result (E.written err.old) (E.written err.new) (E.flushed err.new) (E.faults err.old) (E.faults err.new) }
    // A scheme file that is refused is told, where no fault is counted, but for want of memory.
    ensures refused { (ask : Asked) (why : NoScheme) → asks (map string_bytes words.now.items) ≡ Some ask → IsScheme ask.scheme (F.told files.old) (Err why)
        → NoFault (record { files = F.told files.old; left = S.left input.old; reads = S.faults input.old; written = K.written out.old; flushed = K.flushed out.old; writes = K.faults out.old })
        (record { files = F.told files.new; left = S.left input.new; reads = S.faults input.new; written = K.written out.new; flushed = K.flushed out.new; writes = K.faults out.new })
        → Reports (Refused why) result (E.written err.old) (E.written err.new) (E.flushed err.new) (E.faults err.old) (E.faults err.new) ⊎ (result ≡ 5) }
    // Scheme and text alone decide how a run ends in which no fault is counted, and what it prints, but for want of memory.
    ensures decided { (ask : Asked) (defs : List RecordDef) (text : List ℕ) (printed : Option (List ℕ)) (end : RunEnd) → asks (map string_bytes words.now.items) ≡ Some ask
        → IsScheme ask.scheme (F.told files.old) (Ok defs) → LeadsTo ask.command (setting_of ask defs) text end printed
        → IsText ask.file (record { files = F.told files.old; left = S.left input.old; reads = S.faults input.old; written = K.written out.old; flushed = K.flushed out.old; writes = K.faults out.old }) text
        → NoFault (record { files = F.told files.old; left = S.left input.old; reads = S.faults input.old; written = K.written out.old; flushed = K.flushed out.old; writes = K.faults out.old })
        (record { files = F.told files.new; left = S.left input.new; reads = S.faults input.new; written = K.written out.new; flushed = K.flushed out.new; writes = K.faults out.new })
        → (Reports (Ran end) result (E.written err.old) (E.written err.new) (E.flushed err.new) (E.faults err.old) (E.faults err.new) × IfSome printed (Gained (K.written out.old) (K.written out.new))) ⊎ (result ≡ 5) }
    // A script that is asked for is printed: nothing is read, and the end has its cause.
    ensures script { (ask : ScriptAsk) → asks_script (map string_bytes words.now.items) ≡ Some ask → (files.new ≡ files.old) × (input.new ≡ input.old) × ((end : RunEnd)
        × ScriptEnds ask end (K.written out.old) (K.written out.new) (K.flushed out.old) (K.flushed out.new) (K.faults out.old) (K.faults out.new)
        × Reports (Ran end) result (E.written err.old) (E.written err.new) (E.flushed err.new) (E.faults err.old) (E.faults err.new)) }
    // It is printed whole where no fault of writing is counted, but for want of memory.
    ensures whole { (ask : ScriptAsk) → asks_script (map string_bytes words.now.items) ≡ Some ask → (Rose (K.faults out.old) (K.faults out.new) → ⊥)
        → IsScriptDone ask result (K.written out.old) (K.written out.new) (E.written err.old) (E.written err.new) (E.flushed err.new) (E.faults err.old) (E.faults err.new) }
{
    match ask_of(words) {
        Some(ask) => {
            let end = run_asked(alloc, seed, ask, files, input, out);
            report(end, err)
        }
        None => script_or_usage(alloc, words, out, err),
    }
}

/// Prints the script that the words ask for, or tells that they ask for nothing.
fn script_or_usage<K: Sink, E: Sink>(
    alloc: Global,
    words: &Vec<String>,
    out: &mut K,
    err: &mut E,
) -> Status
    ensures usage { asks_script (map string_bytes words.now.items) ≡ None → (out.new ≡ out.old) × Reports Usage result (E.written err.old) (E.written err.new) (E.flushed err.new) (E.faults err.old) (E.faults err.new) }
    ensures script { (ask : ScriptAsk) → asks_script (map string_bytes words.now.items) ≡ Some ask → (end : RunEnd)
        × ScriptEnds ask end (K.written out.old) (K.written out.new) (K.flushed out.old) (K.flushed out.new) (K.faults out.old) (K.faults out.new)
        × Reports (Ran end) result (E.written err.old) (E.written err.new) (E.flushed err.new) (E.faults err.old) (E.faults err.new) }
{
    match script_ask_of(words) {
        Some(ask) => {
            let end = run_script(alloc, ask, out);
            report(ProgramEnd::Ran(end), err)
        }
        None => report(ProgramEnd::Usage, err),
    }
}

/// All that the process does over its words, or the error of asking for them.
pub fn run_main<F: Files, S: Source, K: Sink, E: Sink>(
    alloc: Global,
    seed: u64,
    words: Result<Vec<String>, io::Error>,
    files: &mut F,
    input: &mut S,
    out: &mut K,
    err: &mut E,
) -> Status
    ensures words { IfOk words (λ given. IsAnswer (asks (map string_bytes given.items)) (asks_script (map string_bytes given.items)) ((files.new ≡ files.old) × (input.new ≡ input.old)) ((files.new ≡ files.old) × (input.new ≡ input.old) × (out.new ≡ out.old))
        (record { files = F.told files.old; left = S.left input.old; reads = S.faults input.old; written = K.written out.old; flushed = K.flushed out.old; writes = K.faults out.old })
        (record { files = F.told files.new; left = S.left input.new; reads = S.faults input.new; written = K.written out.new; flushed = K.flushed out.new; writes = K.faults out.new })
        result (E.written err.old) (E.written err.new) (E.flushed err.new) (E.faults err.old) (E.faults err.new)) }
    ensures none { IfErr words (λ why. (files.new ≡ files.old) × (input.new ≡ input.old) × (out.new ≡ out.old)
        × Reports (end_without_words (error_kind why)) result (E.written err.old) (E.written err.new) (E.flushed err.new) (E.faults err.old) (E.faults err.new)) }
{
    match words {
        Ok(given) => plain_main_seeded(alloc, seed, &given, files, input, out, err),
        Err(why) => report_no_words(why, err),
    }
}

/// The program where the words of its command line cannot be had.
pub fn report_no_words<E: Sink>(why: io::Error, err: &mut E) -> Status
    ensures { Reports (end_without_words (error_kind why)) result (E.written err.old) (E.written err.new) (E.flushed err.new) (E.faults err.old) (E.faults err.new) }
{
    let end = match why.kind() {
        io::ErrorKind::OutOfMemory => ProgramEnd::Ran(RunEnd::NoMemory),
        _ => ProgramEnd::Usage,
    };
    report(end, err)
}

/// Tells how the program ended, where a line belongs to the end, and gives its status. A failure to write the line changes
/// nothing.
pub fn report<E: Sink>(end: ProgramEnd, err: &mut E) -> Status
    ensures { Reports end result (E.written err.old) (E.written err.new) (E.flushed err.new) (E.faults err.old) (E.faults err.new) }
{
    let _ = write_fault(err, end);
    Status::of(end)
}
