//! The top call of `qds`.
//!
//! [`plain_main`] is the whole program over a source, two sinks and files that are handed in, and its contract is the
//! theorem of the whole: which words ask for what, which files are opened, what a command reads and prints, and how a
//! run ends and from which cause (`specs/Program.antt`, `specs/Commands.antt`); the status and the line of each end
//! (`specs/Statuses.antt`, `specs/FaultLines.antt`); and that scheme and text alone decide the end where nothing fails. Where
//! the words ask for a script, nothing is read, and the script is printed (`specs/Scripting.antt`).
#![tactic(auto)]

mod fault_line;
mod names;
mod plain;
mod program_end;
mod running;
mod scripting;
mod status;

pub use plain::{plain_main, plain_main_seeded, report, report_no_words, run_main};
pub use program_end::ProgramEnd;
pub use running::scheme_of;
pub use status::Status;
