// Why no record was read.
ghost use Rattle.std.specs.Prelude.{◌≡◌};
ghost use Rattle.record_log.specs.Faults.{IsReadFault};

use byte_fields::ReadError;
use thiserror::Error;

/// Why no record was read.
#[derive(Clone, Copy, Debug, PartialEq, Eq, Error)]
pub enum RecordFault {
    /// The bytes are not the body of a record that may stand under the header.
    #[error("the bytes are no record that may stand under the header")]
    NotARecord,
    #[error("out of memory")]
    Memory,
}

impl From<ReadError> for RecordFault {
    ghost from_gives = { λ e f. IsReadFault e f };

    fn from(e: ReadError) -> RecordFault {
        match e {
            ReadError::Memory => RecordFault::Memory,
            ReadError::Bad(_) => RecordFault::NotARecord,
        }
    }
}
