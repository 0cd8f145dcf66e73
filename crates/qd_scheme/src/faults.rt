//! What can be wrong with a list of records.

/// The rule that a record or one of its fields breaks.
#[derive(Clone, Copy, Debug, PartialEq, Eq)]
pub enum SchemeWhy {
    /// There are more than 64 records.
    TooManyRecords,
    /// The name is not a letter followed by at most 31 letters, digits and `_`.
    BadName,
    /// A record before it, or a field before it in its record, has the same name.
    DuplicateName,
    /// The record has more than 16 fields.
    TooManyFields,
    /// The scale is above 9.
    BadScale,
}

/// Why no scheme was made. `rec` is the place of the record, from 0, and 64 for too many records.
#[derive(Clone, Copy, Debug, PartialEq, Eq)]
pub enum SchemeFault {
    Wrong { rec: u32, why: SchemeWhy },
    NoMemory,
}
