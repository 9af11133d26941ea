// How a program starts: its arguments, and why it ends before they are carried out.
ghost use Rattle.std.specs.Prelude.{◌≡◌};
ghost use Rattle.host_parts.specs.Status.{start_status};

use std::alloc::AllocError;
use std::env::Args;
use std::iter::Skip;
use std::{env, io};
use thiserror::Error;

/// Why a program ends before its arguments are carried out.
#[derive(Debug, Drop, Error)]
pub enum StartFault {
    /// An image can't be used.
    #[error("cannot use {0}")]
    Image(String),
    /// Memory doesn't suffice.
    #[error("memory")]
    Memory(#[from(alloc)] AllocError),
    /// An argument isn't UTF-8.
    #[error("usage: (not text)")]
    NotText,
}

impl StartFault {
    /// The exit status that reports it.
    pub fn status(&self) -> u8
        ensures { result ≡ start_status self.now }
    {
        match self {
            StartFault::Image(_) => 14,
            StartFault::Memory(_) => 13,
            StartFault::NotText => 1,
        }
    }
}

/// The arguments after the program's name.
///
/// # Errors
///
/// `NotText` where one of them isn't UTF-8, and `Memory`.
pub fn arguments(rt: &HostRuntime) -> Result<Skip<Args>, StartFault> {
    match env::args(rt) {
        Ok(arguments) => Ok(arguments.skip(1)),
        Err(error) if error.kind() == io::ErrorKind::OutOfMemory => Err(StartFault::Memory(
            AllocError,
        )),
        Err(_) => Err(StartFault::NotText),
    }
}
