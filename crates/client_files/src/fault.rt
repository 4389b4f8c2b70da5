// Why a file is not what it should be.
use cbdc_types::InputKind;
use thiserror::Error;

/// The first bad field of a file: the place of its first byte, and what is wrong.
#[derive(Clone, Copy, Debug, PartialEq, Eq, Error)]
#[error("{kind}, at byte {at}")]
pub struct BadFile {
    pub at: u64,
    pub kind: InputKind,
}

/// Why a file was not read.
#[derive(Clone, Copy, Debug, PartialEq, Eq, Error)]
pub enum FileFault {
    #[error(transparent)]
    Bad(BadFile),
    #[error("out of memory")]
    Memory,
}

/// Why the bytes of a file could not be had.
#[derive(Clone, Copy, Debug, PartialEq, Eq, Error)]
pub enum FetchFault {
    #[error("the file cannot be read")]
    ReadFault,
    #[error("out of memory")]
    Memory,
}

/// Why the transactions of a file were not read.
#[derive(Clone, Copy, Debug, PartialEq, Eq, Error)]
pub enum StreamFault {
    #[error(transparent)]
    Bad(BadFile),
    #[error("the file cannot be read")]
    ReadFault,
    #[error("out of memory")]
    Memory,
}
