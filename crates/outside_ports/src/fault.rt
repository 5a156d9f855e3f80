//! Why a file isn't fetched or a piece isn't put, and the count of such faults.
ghost use Rattle.std.specs.Prelude.{◌≡◌, ◌≤◌};
ghost use Rattle.outside_ports.specs.Faults.{Rose, count_after};
ghost use Rattle.outside_ports.specs.declared.fault.FetchFault.TheVariants.{Memory};

use std::alloc::{AllocError, AllocFailed};
use std::error::Error;
use std::fmt;

/// Why a fetch gave no file.
#[derive(Clone, Copy, Debug, PartialEq, Eq)]
pub enum FetchFault {
    /// The shelf could not read the file, or has no file of that name. Its count of faults rose.
    Failed,
    /// The file is longer than the limit.
    TooLong,
    /// There was no memory for the name or for the bytes.
    Memory,
}

/// A sink could not take the whole piece. Its count of faults rose.
#[derive(Clone, Copy, Debug, PartialEq, Eq)]
pub struct Failed;

/// A count after one more fault. It stands still at 2^64 - 1, the last value of its type.
pub(crate) fn count_after(count: u64) -> u64
    ensures value { result ≡ count_after count }
    ensures rose { Rose count result }
    ensures not_below { count ≤ result }
{
    count.saturating_add(1)
}

impl From<AllocError> for FetchFault {
    ghost from_gives = { λ _ fault. fault ≡ Memory };

    fn from(_: AllocError) -> FetchFault {
        FetchFault::Memory
    }
}

impl<T: Drop> From<AllocFailed<T>> for FetchFault {
    ghost from_gives = { λ _ fault. fault ≡ Memory };

    fn from(_: AllocFailed<T>) -> FetchFault {
        FetchFault::Memory
    }
}

impl fmt::Display for FetchFault {
    fn fmt<W: fmt::Write>(&self, f: &mut fmt::Formatter<W>) -> fmt::Result {
        match self {
            FetchFault::Failed => write!(f, "the file can't be read"),
            FetchFault::TooLong => write!(f, "the file is too long"),
            FetchFault::Memory => write!(f, "out of memory"),
        }
    }
}

impl Error for FetchFault {}

impl fmt::Display for Failed {
    fn fmt<W: fmt::Write>(&self, f: &mut fmt::Formatter<W>) -> fmt::Result {
        write!(f, "the bytes can't be written")
    }
}

impl Error for Failed {}
