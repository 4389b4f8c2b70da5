// Where a fault stands in a file, and where a file ends.
ghost use Rattle.std.specs.Prelude.{◌≡◌};
ghost use Rattle.client_files.specs.Files.{bad_at, extra};

use crate::BadFile;
use byte_fields::Fault;
use cbdc_types::InputKind;

/// The bytes that are had of a file: 2^30.
pub(crate) const LIMIT: usize = 0x4000_0000;

/// The place of a fault in a file of which this many bytes were had.
pub(crate) fn place(len: usize, more: bool, fault: &Fault) -> BadFile
    ensures { result ≡ bad_at len more fault.now.left fault.now.kind }
{
    if more && fault.kind == InputKind::Cut {
        return BadFile {
            at: LIMIT as u64,
            kind: InputKind::Large,
        };
    }
    BadFile {
        at: len.saturating_sub(fault.left) as u64,
        kind: fault.kind,
    }
}

/// What is wrong behind the last item, if anything.
pub(crate) fn behind(more: bool, rest: &[u8]) -> Option<Fault>
    ensures { result ≡ extra more rest.now }
{
    if !more && rest.is_empty() {
        return None;
    }
    Some(Fault {
        left: rest.len(),
        kind: InputKind::Extra,
    })
}
