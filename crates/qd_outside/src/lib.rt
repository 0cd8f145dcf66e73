//! The world outside: sources that bytes come from, sinks that they go to, and files by name.
//!
//! Each trait counts its faults, and that count never falls: a call fails only where the count rose. A trait tells the
//! bytes that are left and those that were written, where they are known; the adapters over real things tell none.
//!
//! Beside each trait stand the one in memory whose calls fail by a plan ([`ListSource`], [`ListSink`], [`ListFiles`]),
//! the one that never fails ([`SoundSource`], [`SoundSink`], [`SoundFiles`]), and the adapter over the real thing
//! ([`Reading`], [`Writing`], [`RealFiles`]). [`OutBuffer`] writes bytes in large pieces.
#![tactic(auto)]

mod file_sink;
mod file_source;
mod files;
mod list_files;
mod memory;
mod out_buffer;
mod plan;
mod real;
mod real_files;
mod retrying;
mod sink;
mod source;

pub use file_sink::FileSink;
pub use file_source::FileSource;
pub use files::{Files, SoundFiles};
pub use list_files::{HeldFile, ListFiles, OpenCall};
pub use memory::{ListSink, ListSource, SoundSink, SoundSource};
pub use out_buffer::OutBuffer;
pub use real::{Reading, Writing};
pub use real_files::RealFiles;
pub use sink::{Sink, Write, write_all};
pub use source::{Read, Source};
