// Why a report is not read.
use std::alloc::AllocError;
use wc_base::NoMemory as WantOfMemory;

/// Why a report is not read.
#[derive(Clone, Copy, Debug, PartialEq, Eq)]
pub enum ReportFault {
    /// The line with this number, from 1, is the first at fault: it has not the form of a line that may stand there, or
    /// differs from the report of the run that the lines show.
    BadLine { line: u64 },
    NoMemory,
}

impl From<AllocError> for ReportFault {
    ghost use Rattle.std.specs.Prelude.{◌≡◌};
    ghost use Rattle.report_reader.specs.declared.fault.ReportFault.TheVariants.{NoMemory};

    ghost from_gives = { λ _ e. e ≡ NoMemory };

    fn from(_error: AllocError) -> ReportFault {
        ReportFault::NoMemory
    }
}

impl From<WantOfMemory> for ReportFault {
    ghost use Rattle.std.specs.Prelude.{◌≡◌};
    ghost use Rattle.report_reader.specs.declared.fault.ReportFault.TheVariants.{NoMemory};

    ghost from_gives = { λ _ e. e ≡ NoMemory };

    fn from(_error: WantOfMemory) -> ReportFault {
        ReportFault::NoMemory
    }
}
