//! What can go wrong, with its message and its exit status.
ghost use Rattle.std.specs.Prelude.{◌≡◌, Some};

use std::alloc::{AllocError, AllocFailed};
use std::error::Error;
use std::fmt;

/// The error of [`parse_commands`](crate::parse::parse_commands).
///
/// `?` converts an `AllocError` into it, and it into a [`ToolFault`].
#[derive(Debug, PartialEq, Eq, Clone, Copy)]
pub enum TextFault {
    /// The number of the first line that is no command, counted from 1.
    BadLine(u64),
    /// Memory ran out at that line or before it.
    OutOfMemory,
}

/// The error of [`execute`](crate::execute::execute).
///
/// `?` converts an `AllocError` or a [`TextFault`] into it.
///
/// # Examples
///
/// ```
/// use multimap_tool::faults::ToolFault;
///
/// let fault = ToolFault::BadLine(7);
/// assert_eq!(rt; fault.status(), 2);
/// assert!(rt; format!(in rt.alloc(); "{fault}")?.as_str() == "bad line 7");
/// ```
#[derive(Debug, PartialEq, Eq, Clone, Copy)]
pub enum ToolFault {
    /// The number of the first line that is no command, counted from 1. Nothing was run or written.
    BadLine(u64),
    /// The input couldn't be read to its end. Nothing was run or written.
    Read,
    /// The output couldn't be written. It is unknown how much of it was.
    Write,
    /// Memory ran out. Nothing was written.
    OutOfMemory,
}

impl ToolFault {
    ghost use Rattle.multimap_tool.specs.Faults.{status_of};

    /// Returns the exit status of a program that ends with this fault.
    ///
    /// It is 2 for a bad line, 3 for a failed read or write, and 4 for want of memory.
    ///
    /// # Complexity
    ///
    /// *O*(1).
    ///
    /// # Examples
    ///
    /// ```
    /// use multimap_tool::faults::ToolFault;
    ///
    /// assert_eq!(rt; ToolFault::BadLine(7).status(), 2);
    /// assert_eq!(rt; ToolFault::Read.status(), 3);
    /// assert_eq!(rt; ToolFault::OutOfMemory.status(), 4);
    /// ```
    pub fn status(&self) -> u8
        ensures status { result ≡ status_of self.now }
    {
        match self {
            ToolFault::BadLine(_) => 2,
            ToolFault::Read | ToolFault::Write => 3,
            ToolFault::OutOfMemory => 4,
        }
    }
}

impl fmt::Display for TextFault {
    ghost use Rattle.multimap_tool.specs.Faults.{text_fault_text};

    ghost output = { λ fault. Some (text_fault_text fault) };

    fn fmt<W: fmt::Write>(&self, f: &mut fmt::Formatter<W>) -> fmt::Result {
        ToolFault::from(*self).fmt(f)
    }
}

impl fmt::Display for ToolFault {
    ghost use Rattle.multimap_tool.specs.Faults.{fault_text};

    ghost output = { λ fault. Some (fault_text fault) };

    fn fmt<W: fmt::Write>(&self, f: &mut fmt::Formatter<W>) -> fmt::Result {
        match self {
            ToolFault::BadLine(line) => write!(f, "bad line {line}"),
            ToolFault::Read => write!(f, "read failed"),
            ToolFault::Write => write!(f, "write failed"),
            ToolFault::OutOfMemory => write!(f, "out of memory"),
        }
    }
}

impl Error for TextFault {}

impl Error for ToolFault {}

impl From<AllocError> for TextFault {
    ghost use Rattle.multimap_tool.specs.declared.faults.TextFault.TheVariants.{OutOfMemory};

    ghost from_gives = { λ _ fault. fault ≡ OutOfMemory };

    fn from(_error: AllocError) -> TextFault {
        TextFault::OutOfMemory
    }
}

impl<T: Drop> From<AllocFailed<T>> for TextFault {
    ghost use Rattle.multimap_tool.specs.declared.faults.TextFault.TheVariants.{OutOfMemory};

    ghost from_gives = { λ _ fault. fault ≡ OutOfMemory };

    fn from(_failed: AllocFailed<T>) -> TextFault {
        TextFault::OutOfMemory
    }
}

impl From<AllocError> for ToolFault {
    ghost use Rattle.multimap_tool.specs.declared.faults.ToolFault.TheVariants.{OutOfMemory};

    ghost from_gives = { λ _ fault. fault ≡ OutOfMemory };

    fn from(_error: AllocError) -> ToolFault {
        ToolFault::OutOfMemory
    }
}

impl From<TextFault> for ToolFault {
    ghost use Rattle.multimap_tool.specs.Faults.{as_tool_fault};

    ghost from_gives = { λ text_fault fault. fault ≡ as_tool_fault text_fault };

    fn from(fault: TextFault) -> ToolFault {
        match fault {
            TextFault::BadLine(line) => ToolFault::BadLine(line),
            TextFault::OutOfMemory => ToolFault::OutOfMemory,
        }
    }
}
