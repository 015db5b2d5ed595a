//! Why a file could not be read.

ghost use Rattle.std.specs.Prelude.{◌≡◌};
ghost use Rattle.inputs_file.specs.declared.fault.Unread.TheVariants as unread;

use crate::field::Field;
use std::alloc::{AllocError, AllocFailed};
use std::fmt;

/// The first line, from the top, that a file of inputs can't have there.
#[derive(Clone, Copy, Debug, PartialEq, Eq)]
pub struct Fault {
    /// The line, counted from 1.
    pub line: usize,
    /// What was expected there.
    pub expected: Field,
}

impl fmt::Display for Fault {
    fn fmt<W: fmt::Write>(&self, f: &mut fmt::Formatter<W>) -> fmt::Result {
        write!(f, "line {}: expected {}", self.line, self.expected)
    }
}

/// Why a file was not read.
#[derive(Debug, Drop)]
pub enum ReadError {
    Memory,
    Fault(Fault),
}

impl fmt::Display for ReadError {
    fn fmt<W: fmt::Write>(&self, f: &mut fmt::Formatter<W>) -> fmt::Result {
        match self {
            ReadError::Memory => f.write_str("out of memory"),
            ReadError::Fault(fault) => write!(f, "{fault}"),
        }
    }
}

/// Where reading stopped: what was expected, and how many bytes were left.
#[derive(Clone, Copy, Debug)]
pub(crate) struct Stop {
    pub expected: Field,
    pub left: usize,
}

/// Why a part of a file was not read.
#[derive(Debug, Drop)]
pub(crate) enum Unread {
    Memory,
    Stop(Stop),
}

impl From<AllocError> for Unread {
    ghost from_gives = { λ _ e. e ≡ unread.Memory };

    fn from(_e: AllocError) -> Unread {
        Unread::Memory
    }
}

impl<T: Drop> From<AllocFailed<T>> for Unread {
    ghost from_gives = { λ _ e. e ≡ unread.Memory };

    fn from(_e: AllocFailed<T>) -> Unread {
        Unread::Memory
    }
}

impl From<Stop> for Unread {
    ghost from_gives = { λ s e. e ≡ unread.Stop s };

    fn from(stop: Stop) -> Unread {
        Unread::Stop(stop)
    }
}
