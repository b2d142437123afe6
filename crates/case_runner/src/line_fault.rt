// Why a line is none of a file of cases.
use std::alloc::{AllocError, AllocFailed};

/// Why a line is none of a file of cases.
#[derive(Clone, Copy, Debug)]
pub(crate) enum LineFault {
    /// It is no line that is known here.
    BadLine,
    /// It names a text that is not before it.
    NoSuchText,
    /// No tool is named before this case.
    NoTool,
    /// A case, or a text, of this name is before it in the file.
    SameName,
    /// The case that begins here has no status.
    NoStatus,
    /// There was not enough memory.
    NoMemory,
}

impl From<AllocError> for LineFault {
    fn from(_: AllocError) -> LineFault {
        LineFault::NoMemory
    }
}

impl<T: Drop> From<AllocFailed<T>> for LineFault {
    fn from(_: AllocFailed<T>) -> LineFault {
        LineFault::NoMemory
    }
}
