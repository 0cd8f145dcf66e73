use qd_scheme::SchemeWhy;
use qd_text::BadLine;

/// Why a scheme file gives no scheme.
#[derive(Clone, Copy, Debug, PartialEq, Eq)]
pub enum NoScheme {
    /// A line that describes no record.
    Bad(BadLine),
    /// The records are no scheme; the line is that of the record at fault.
    Wrong { line: u64, why: SchemeWhy },
    /// The line has more than 4096 bytes.
    LineTooLong { line: u64 },
    /// 2^40 bytes were read, and the file did not end.
    TooMuch,
    ReadFault,
    NoMemory,
}
