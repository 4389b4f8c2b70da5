// Records at their places of a history.
ghost use Rattle.std.specs.Prelude.{◌≡◌, ◌+◌, ◌<◌, ◌≤◌, ◌^◌, ◌↔◌, ◌++◌, ℕ, [], IsTrue, IfOk, OnOk};
ghost use Rattle.cbdc_model.specs.Records.{journal};
ghost use Rattle.cbdc_model.specs.Causes.{IsCaused};
ghost use Rattle.plain_check.specs.Journals.{journals_from};

use crate::caused::is_caused;
use crate::copying::put;
use crate::history::{Row, journal_of};
use cbdc_types::{List, NodeId, Record, Shape};
use std::alloc::{AllocError, Global};

// Puts the journals of n nodes, of which this is the first, behind those so far.
fn add_journals(
    alloc: Global,
    rows: &[Row],
    node: u32,
    n: u32,
    out: &mut Vec<List<Record>>,
) -> Result<(), AllocError>
    requires { node + n < 2 ^ 32 }
    ensures { OnOk result (out.new.items ≡ out.old.items ++ journals_from rows.now node n) }
{
    if n == 0 {
        return Ok(());
    }
    put(out, journal_of(alloc, NodeId(node), rows)?)?;
    add_journals(alloc, rows, node + 1, n - 1, out)
}

/// The journals of all nodes, of a history.
pub fn journals_of(
    alloc: Global,
    shape: &Shape,
    rows: &[Row],
) -> Result<List<List<Record>>, AllocError>
    ensures { IfOk result (λ l. l ≡ journals_from rows.now 0 (shape.now.coordinators + shape.now.shards)) }
{
    let mut out = Vec::new(alloc);
    add_journals(alloc, rows, 0, shape.node_count(), &mut out)?;
    Ok(List::from_vec(out))
}

/// Whether a row on top of a history's rows is caused by them: its causes stand before it, it agrees with them, and its
/// stamp is one more than the greatest of theirs and of its node's last.
pub fn is_caused_at(
    alloc: Global,
    shape: &Shape,
    past: &[Row],
    row: &Row,
) -> Result<bool, AllocError>
    requires { (n : ℕ) → shape.now.coordinators + shape.now.shards ≤ n → journal n past.now ≡ [] }
    ensures { IfOk result (λ yes. IsTrue yes
        ↔ IsCaused shape.now (λ n. journal n past.now) row.now.node row.now.what) }
{
    let all = journals_of(alloc, shape, past)?;
    is_caused(alloc, all.as_slice(), shape, row.node, &row.what)
}
