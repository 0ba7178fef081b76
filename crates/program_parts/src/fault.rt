//! Why a program has no answer, and with which status it ends then.
ghost use Rattle.std.specs.IoError.{error_kind};
ghost use Rattle.std.specs.Prelude.{◌≡◌, IfErr, OnOk};
ghost use Rattle.std.specs.declared.io.ErrorKind.TheVariants.{InvalidData, InvalidInput, OutOfMemory};
ghost use Rattle.program_parts.specs.declared.fault.Fault.TheVariants.{System};
ghost use Rattle.program_parts.specs.Statuses.{status_of_error, status_of_fault};

use crate::lines::OneLine;
use std::alloc::{AllocError, AllocFailed, Global};
use std::io;
use std::io::ErrorKind;

/// Why a program has no answer.
#[derive(Clone, Copy)]
pub enum Fault {
    /// What was asked for is absent.
    Absent,
    /// The arguments aren't what the program takes.
    Usage(io::Error),
    /// The line of this number, counted from 1, is bad.
    Line(usize, io::Error),
    /// The input could not be read, or is bad for a reason that no one line has.
    Input(io::Error),
    /// Memory was refused, or the system failed, as in writing.
    System(io::Error),
}

impl Fault {
    /// The exit status of a program that failed so.
    pub fn status(&self) -> u8
        ensures { result ≡ status_of_fault self.now }
    {
        match self {
            Fault::Absent => 1,
            Fault::Usage(_) | Fault::Line(_, _) => 2,
            Fault::Input(error) | Fault::System(error) => status_of(error),
        }
    }

    /// The fault of the line of this number. Only what is bad in the line is the line's fault.
    pub fn at_line(number: usize, error: io::Error) -> Fault
        ensures bad { error_kind error ≡ InvalidData → result ≡ Fault.Line number error }
        ensures status { status_of_fault result ≡ status_of_error error }
    {
        match error.kind() {
            ErrorKind::InvalidData => Fault::Line(number, error),
            _ => Fault::System(error),
        }
    }

    /// The fault of an input that could not be read, or that is bad as a whole.
    pub fn input(error: io::Error) -> Fault
        ensures status { status_of_fault result ≡ status_of_error error }
    {
        match error.kind() {
            ErrorKind::OutOfMemory => Fault::System(error),
            _ => Fault::Input(error),
        }
    }
}

impl From<io::Error> for Fault {
    ghost from_gives = { λ error fault. fault ≡ System error };

    fn from(error: io::Error) -> Fault {
        Fault::System(error)
    }
}

impl From<AllocError> for Fault {
    ghost from_gives = { λ _ fault. status_of_fault fault ≡ 3 };

    fn from(error: AllocError) -> Fault {
        Fault::System(io::Error::from(error))
    }
}

impl<T: Drop> From<AllocFailed<T>> for Fault {
    ghost from_gives = { λ _ fault. status_of_fault fault ≡ 3 };

    fn from(error: AllocFailed<T>) -> Fault {
        Fault::from(AllocError::from(error))
    }
}

/// The exit status of a program that failed so: 2 where its input is bad, 3 when out of memory, 141
/// where nobody reads its output any more, and 4 where else reading or writing failed.
pub fn status_of(error: &io::Error) -> u8
    ensures { result ≡ status_of_error error.now }
{
    match error.kind() {
        ErrorKind::InvalidData => 2,
        ErrorKind::OutOfMemory => 3,
        ErrorKind::BrokenPipe => 141,
        _ => 4,
    }
}

/// The error of an input that is bad for this reason.
pub fn bad(reason: &str) -> io::Error
    ensures { error_kind result ≡ InvalidData }
{
    io::Error::new(ErrorKind::InvalidData, reason)
}

/// The fault of arguments that the program doesn't take: the reason, and behind it the word that is
/// bad.
pub fn unknown(alloc: Global, reason: &str, word: &str) -> Fault {
    match format!(in alloc; "{reason}: {}", OneLine(word)) {
        Ok(reason) => usage(&reason),
        Err(error) => Fault::from(error),
    }
}

/// The fault of arguments that are bad for this reason.
pub fn usage(reason: &str) -> Fault
    ensures { status_of_fault result ≡ 2 }
{
    Fault::Usage(io::Error::new(ErrorKind::InvalidInput, reason))
}
