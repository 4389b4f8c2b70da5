// Client files.
ghost use Rattle.std.specs.Prelude.{◌≡◌, ℕ, List, length};
ghost use Rattle.byte_fields.specs.Faults.{Gives};
ghost use Rattle.client_files.specs.Files.{GivesFile, clients_in, counted_behind};

use crate::FileFault;
use crate::places::{behind, place};
use byte_fields::{Fault, ReadError, items, number};
use cbdc_types::{FullTx, InputKind, List};
use std::alloc::Global;

// Their number, which with those before is at most 1,000,000, and then so many of them.
#[tactic(auto, unfolding(crate::specs::Files::counted_behind))]
fn counted(alloc: Global, before: u64, bytes: &[u8]) -> Result<(List<FullTx>, &[u8]), ReadError>
    ensures { Gives (λ x. (x.0, x.1.now)) result (counted_behind before bytes.now) }
{
    let (count, rest) = number(bytes)?;
    if before.saturating_add(count) > 1_000_000 {
        return Err(ReadError::Bad(Fault {
            left: bytes.len(),
            kind: InputKind::TooMany,
        }));
    }
    items::<FullTx>(alloc, count, rest)
}

/// The transactions of a client file: its first 2^30 bytes, whether it goes on behind them, and how many
/// transactions stand in the client files before it. A count that with those is above 1,000,000 is TooMany.
pub fn read_clients(
    alloc: Global,
    bytes: &[u8],
    more: bool,
    before: u64,
) -> Result<List<FullTx>, FileFault>
    ensures { GivesFile result (clients_in before more bytes.now) }
{
    match counted(alloc, before, bytes) {
        Ok((txs, rest)) => match behind(more, rest) {
            None => Ok(txs),
            Some(fault) => Err(FileFault::Bad(place(bytes.len(), more, &fault))),
        },
        Err(ReadError::Memory) => Err(FileFault::Memory),
        Err(ReadError::Bad(fault)) => Err(FileFault::Bad(place(bytes.len(), more, &fault))),
    }
}
