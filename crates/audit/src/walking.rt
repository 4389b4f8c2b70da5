// The walk over a history.
ghost use Rattle.std.specs.Prelude.{All, IfOk, MatchOption};
ghost use Rattle.audit.specs.Rows.{read, rows_at, newest_first, IsRecordPlace};
ghost use Rattle.audit.specs.Walks.{AllCaused, IsFirstUncaused};

use crate::caused::is_caused;
use crate::known::Known;
use crate::{Place, record_at};
use cbdc_types::{Record, Shape};
use std::alloc::{AllocError, Global};

/// The first place of a history, counted from the oldest, whose record is not caused by those before it, or None where each is: its
/// causes stand before it, it agrees with them, and its stamp is one more than the greatest of theirs and of its node's last.
pub fn causes(
    alloc: Global,
    shape: &Shape,
    journals: &[&[Record]],
    history: &[Place],
) -> Result<Option<u64>, AllocError>
    requires { All (IsRecordPlace (read journals.now)) history.now }
    ensures { IfOk result
        (λ first. MatchOption first (AllCaused shape.now (newest_first (read journals.now) history.now))
        (IsFirstUncaused shape.now (rows_at (read journals.now) history.now))) }
{
    let mut known = Known::new(alloc);
    'places: for at in 0..history.len() {
        let place = history[at];
        let r = record_at(journals, place);
        if !is_caused(alloc, &known, journals, shape, place.node, r)? {
            return Ok(Some(at as u64));
        }
        known.note(place.node, place.index, r)?;
    }
    Ok(None)
}
