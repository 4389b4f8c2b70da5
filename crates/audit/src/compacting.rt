// The compact forms of transactions.
ghost use Rattle.std.specs.Prelude.{IfOk};
ghost use Rattle.std.specs.List.{AllZip};
ghost use Rattle.audit.specs.Keeping.{IsFormOf};

use cbdc_types::{CompactTx, FullTx};
use rayon::prelude::*;
use sentinel::compact;
use std::alloc::{AllocError, Global};
use std::thread::Threads;

/// The compact form of each transaction. Where there are many, each processor makes some of them.
pub(crate) fn forms_of<W: Threads + Sync>(
    rt: &W,
    alloc: Global,
    txs: &[FullTx],
) -> Result<Vec<CompactTx>, AllocError>
    ensures { IfOk result (λ v. AllZip IsFormOf txs.now v.items) }
{
    txs.par_iter()
        .map(
            |tx: &FullTx| -> Result<CompactTx, AllocError>
                ensures { IfOk result (IsFormOf tx.now) }
            { compact(alloc, tx) },
        )
        .collect::<Result<Vec<CompactTx>, AllocError>>(rt, alloc)?
}
