// How many hashes are unspent over all shards.
ghost use Rattle.std.specs.Prelude.{◌≡◌, ◌≤◌, length, IfOk};
ghost use Rattle.plain_check.specs.Journals.{journals_in};
ghost use Rattle.printed_lines.specs.Unspent.{IsUnspentCount};
ghost use Rattle.plain_check.specs.Searches.{last_ones};

use crate::{has, unspent_of};
use cbdc_types::{Hash, List, Record, Shape};
use std::alloc::{AllocError, Global};

// How many different hashes stand in a list.
fn count_different(xs: &[Hash]) -> usize
    ensures count { result ≡ length (last_ones xs.now) }
    ensures bound { result ≤ length xs.now }
{
    let Some((x, rest)) = xs.split_first() else {
        return 0;
    };
    let behind = count_different(rest);
    if has(rest, x) { behind } else { behind + 1 }
}

/// How many hashes are unspent at their shards by these journals of all nodes.
pub fn unspent_count(
    alloc: Global,
    shape: &Shape,
    journals: &[List<Record>],
) -> Result<u64, AllocError>
    ensures { IfOk result (IsUnspentCount shape.now (journals_in journals.now)) }
{
    let hashes = unspent_of(alloc, journals, shape)?;
    Ok(count_different(hashes.as_slice()) as u64)
}
