ghost use Rattle.std.specs.Prelude.{◌≡◌, ◌≤◌};
ghost use Rattle.qds_tools.specs.Statuses.{run_status, scheme_status, status_of};

use crate::program_end::ProgramEnd;
use qd_items::RunEnd;
use qd_scheme_file::NoScheme;
use std::marker::Model;

/// The exit status of the program, 0 to 7.
#[derive(Clone, Copy, Debug)]
pub struct Status {
    code: u8,
}

impl Model for Status {
    ghost use Rattle.std.specs.Prelude.{ℕ, ◌≤◌};

    ghost Value = { ℕ };

    ghost view = { λ s. s.code };

    ghost invariant = { λ s. s.code ≤ 7 };

    ghost inverse = { λ n. record { code = n } };
}

impl Status {
    /// The status of an end.
    pub fn of(end: ProgramEnd) -> Status
        ensures { result ≡ status_of end }
    {
        match end {
            ProgramEnd::Usage => Status { code: 2 },
            ProgramEnd::Refused(why) => Status {
                code: scheme_status(why),
            },
            ProgramEnd::Ran(end) => Status {
                code: run_status(end),
            },
            ProgramEnd::NetFault => Status { code: 6 },
        }
    }

    /// The status as a process tells it, at most 7.
    pub fn get(&self) -> u8
        ensures value { result ≡ self.now }
        ensures within { self.now ≤ 7 }
    {
        self.code
    }
}

fn scheme_status(why: NoScheme) -> u8
    ensures status { result ≡ scheme_status why }
    ensures within { result ≤ 7 }
{
    match why {
        NoScheme::Bad(_)
        | NoScheme::Wrong { .. }
        | NoScheme::LineTooLong { .. }
        | NoScheme::TooMuch => 1,
        NoScheme::ReadFault => 3,
        NoScheme::NoMemory => 5,
    }
}

fn run_status(end: RunEnd) -> u8
    ensures status { result ≡ run_status end }
    ensures within { result ≤ 7 }
{
    match end {
        RunEnd::Done => 0,
        RunEnd::CutOff { .. }
        | RunEnd::Bad(_)
        | RunEnd::LineTooLong { .. }
        | RunEnd::BadStep { .. }
        | RunEnd::Refused { .. }
        | RunEnd::TooMuch => 1,
        RunEnd::ReadFault => 3,
        RunEnd::WriteFault => 4,
        RunEnd::NoMemory => 5,
        RunEnd::Spent => 7,
    }
}
