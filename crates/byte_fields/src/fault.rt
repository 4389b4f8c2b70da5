// Why bytes are not what is read.
ghost use Rattle.std.specs.Prelude.{◌≡◌};
ghost use Rattle.byte_fields.specs.declared.fault.ReadError.TheVariants.{Memory};

use cbdc_types::InputKind;
use std::alloc::{AllocError, AllocFailed};
use thiserror::Error;

/// The first bad field: how many bytes are left at its first byte, and what is wrong.
#[derive(Clone, Copy, Debug, PartialEq, Eq, Error)]
#[error("{kind}, {left} bytes before the end")]
pub struct Fault {
    pub left: usize,
    pub kind: InputKind,
}

/// Why nothing was read.
#[derive(Clone, Copy, Debug, PartialEq, Eq, Error)]
pub enum ReadError {
    #[error("out of memory")]
    Memory,
    /// A field is bad.
    #[error(transparent)]
    Bad(Fault),
}

impl From<AllocError> for ReadError {
    ghost from_gives = { λ _ e. e ≡ Memory };

    fn from(_e: AllocError) -> ReadError {
        ReadError::Memory
    }
}

impl<T: Drop> From<AllocFailed<T>> for ReadError {
    ghost from_gives = { λ _ e. e ≡ Memory };

    fn from(_e: AllocFailed<T>) -> ReadError {
        ReadError::Memory
    }
}
