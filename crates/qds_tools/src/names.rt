//! The names of faults, as the program prints them.

ghost use Rattle.std.specs.Prelude.{◌≡◌, ◌≤◌, length};
ghost use Rattle.qds_tools.specs.FaultLines.{number_name, why_name, limit_name, scheme_name};

use qd_decimal::DecFault;
use qd_items::Limit;
use qd_scheme::SchemeWhy;
use qd_text::Why;

/// The name of a line's fault; a number's fault is told by its own.
pub fn why_name(why: Why) -> &'static str
    ensures name { result.now ≡ why_name why }
    ensures short { length result.now ≤ 64 }
{
    match why {
        Why::Form => "Form",
        Why::UnknownRecord => "UnknownRecord",
        Why::SchemeMismatch => "SchemeMismatch",
        Why::Number(fault) => number_name(fault),
        Why::BadSymbol => "BadSymbol",
        Why::BadFlags => "BadFlags",
        Why::Order => "Order",
    }
}

fn number_name(fault: DecFault) -> &'static str
    ensures name { result.now ≡ number_name fault }
    ensures short { length result.now ≤ 64 }
{
    match fault {
        DecFault::Empty => "Empty",
        DecFault::BadByte(_) => "BadByte",
        DecFault::TooFine(_) => "TooFine",
        DecFault::TooLarge => "TooLarge",
    }
}

/// The name of a limit that was met.
pub fn limit_name(limit: Limit) -> &'static str
    ensures name { result.now ≡ limit_name limit }
    ensures short { length result.now ≤ 64 }
{
    match limit {
        Limit::TooManyKeys => "TooManyKeys",
        Limit::TooManySubs => "TooManySubs",
        Limit::HistoryFull => "HistoryFull",
    }
}

/// The name of the rule that a scheme breaks.
pub fn scheme_name(why: SchemeWhy) -> &'static str
    ensures name { result.now ≡ scheme_name why }
    ensures short { length result.now ≤ 64 }
{
    match why {
        SchemeWhy::TooManyRecords => "TooManyRecords",
        SchemeWhy::BadName => "BadName",
        SchemeWhy::DuplicateName => "DuplicateName",
        SchemeWhy::TooManyFields => "TooManyFields",
        SchemeWhy::BadScale => "BadScale",
    }
}
