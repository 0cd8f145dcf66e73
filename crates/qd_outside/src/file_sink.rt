ghost use Rattle.std.specs.Prelude.{◌≡◌, true};

use crate::files::Files;
use crate::sink::{Sink, Write};

/// The file that was opened to be written, as a sink. The files are as they were but for what is written to it, whether
/// that is flushed, and the faults of its writes and flushes.
#[derive(Drop)]
pub struct FileSink<'a, F: Files> {
    files: &'a mut F,
    ghost writing: { (F.told files.now).is_writing ≡ true },
}

impl<'a, F: Files> FileSink<'a, F> {
    /// The file that is written, behind what was written to it.
    pub fn new(files: &'a mut F) -> FileSink<'a, F>
        requires { (F.told files.old).is_writing ≡ true }
        ensures same_files { result.files.ghost_name ≡ files.entry.ghost_name }
        ensures now { result.files.now ≡ files.old }
    {
        FileSink { files }
    }
}

impl<'a, F: Files> Sink for FileSink<'a, F> {
    ghost use Rattle.std.specs.Prelude.{ℕ, None, true};
    ghost use Rattle.qd_outside.specs.Opening.{FilesState};

    ghost written = { λ s. (F.told s.files.now).written };

    ghost flushed = { λ s. (F.told s.files.now).flushed };

    ghost faults = { λ s. (F.told s.files.now).write_faults };

    ghost Kept = { ℕ × FilesState };

    // Which files they are, and what else they tell.
    ghost kept = { λ s. (s.files.ghost_name, record (F.told s.files.now) { written = None; flushed = true; write_faults = 0 }) };

    fn write(&mut self, piece: &[u8]) -> Write {
        self.files.write(piece)
    }

    fn flush(&mut self) -> bool {
        self.files.flush()
    }
}
