//! The names of ends, as they are printed.

ghost use Rattle.std.specs.Prelude.{◌≡◌, ◌≤◌, length};
ghost use Rattle.qd_serve.specs.Printing.{in_name, out_name};

use qd_link::OutEnd;
use qd_session::InEnd;

/// The name of an end of the half that reads.
pub fn in_name(end: InEnd) -> &'static str
    ensures name { result.now ≡ in_name end }
    ensures short { length result.now ≤ 64 }
{
    match end {
        InEnd::End => "End",
        InEnd::CutOff => "CutOff",
        InEnd::Bad(_) => "Bad",
        InEnd::LineTooLong { .. } => "LineTooLong",
        InEnd::Refused { .. } => "Refused",
        InEnd::TooMuch => "TooMuch",
        InEnd::ReadFault => "ReadFault",
        InEnd::Spent => "Spent",
        InEnd::NoMemory => "NoMemory",
    }
}

/// The name of an end of the half that writes.
pub fn out_name(end: OutEnd) -> &'static str
    ensures name { result.now ≡ out_name end }
    ensures short { length result.now ≤ 64 }
{
    match end {
        OutEnd::Shut => "Shut",
        OutEnd::Turns => "Turns",
        OutEnd::WriteFault => "WriteFault",
        OutEnd::Spent => "Spent",
        OutEnd::NoMemory => "NoMemory",
    }
}
