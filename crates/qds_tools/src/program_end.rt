use qd_items::RunEnd;
use qd_scheme_file::NoScheme;

/// How a run of the program ends.
#[derive(Clone, Copy, Debug, PartialEq, Eq)]
pub enum ProgramEnd {
    /// The words ask for nothing that is known.
    Usage,
    /// The scheme file gave no scheme.
    Refused(NoScheme),
    /// The command ran, or its text could not be opened.
    Ran(RunEnd),
    /// A call on the net or on a connection failed.
    NetFault,
}
