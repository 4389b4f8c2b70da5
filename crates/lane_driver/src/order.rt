// The calls of a batch's phases.
ghost use Rattle.std.specs.Prelude.{◌≡◌, ◌<◌, ◌≤◌, List, [], length, map, All};
ghost use Rattle.std.specs.Vec.{vec_capacity, vec_len};
ghost use Rattle.cbdc_model.specs.Outcomes.{decisions, won_at};
ghost use Rattle.lane_driver.specs.Calls.{lock_call_of, finish_call_of, forget_call_of};

use cbdc_types::{
    BatchId, Decisions, Entry, FinishCall, ForgetCall, List, LockCall, Outcome, Part, Stamp,
};

/// The lock calls of a batch for its parts. There is room for them.
pub fn lock_calls(
    parts: List<(u32, Part)>,
    batch: &BatchId,
    cause: Stamp,
    out: &mut Vec<(u32, LockCall)>,
)
    requires empty { out.old.items ≡ [] }
    requires room { length parts ≤ vec_capacity out.old }
    ensures { out.new.items ≡ map (lock_call_of batch.now cause) parts }
{
    for (shard, part) in parts.into_vec() {
        out.push_reserved((
            shard,
            LockCall {
                batch: *batch,
                part,
                cause,
            },
        ));
    }
}

// Whether the transaction at this place is committed.
#[tactic(auto, using(crate::proofs::Winners::winners))]
fn is_won(outcomes: &[Outcome], place: u32) -> bool
    ensures { result ≡ won_at outcomes.now place }
{
    match outcomes.get(place as usize) {
        Some(Outcome::Held) => true,
        _ => false,
    }
}

// The decisions for a part. There is room for them.
fn decisions_of(part: &[Entry], outcomes: &[Outcome], mut out: Vec<bool>) -> Decisions
    requires empty { out.items ≡ [] }
    requires room { length part.now ≤ vec_capacity out }
    ensures { result ≡ decisions outcomes.now part.now }
{
    for entry in part {
        out.push_reserved(is_won(outcomes, entry.place));
    }
    List::from_vec(out)
}

/// The finish calls of a batch whose outcomes these are. There is room for them and for their decisions.
pub fn finish_calls(
    locks: &[(u32, LockCall)],
    outcomes: &[Outcome],
    batch: &BatchId,
    cause: Stamp,
    rooms: &mut Vec<Vec<bool>>,
    out: &mut Vec<(u32, FinishCall)>,
)
    requires empty { out.old.items ≡ [] }
    requires room { length locks.now ≤ vec_capacity out.old }
    requires parts { All (λ c. length c.1.part ≤ length outcomes.now) locks.now }
    requires rooms { All (λ v. (v.items ≡ []) × (length outcomes.now ≤ vec_capacity v)) rooms.old.items }
    requires as_many { length locks.now ≤ vec_len rooms.old }
    ensures { out.new.items ≡ map (finish_call_of batch.now cause outcomes.now) locks.now }
{
    for lock in locks {
        match rooms.pop() {
            Some(room) => {
                let decisions = decisions_of(lock.1.part.as_slice(), outcomes, room);
                out.push_reserved((
                    lock.0,
                    FinishCall {
                        batch: *batch,
                        decisions,
                        cause,
                    },
                ));
            }
            None => unreachable!(),
        }
    }
}

/// The forget calls of a batch. There is room for them.
pub fn forget_calls(
    locks: &[(u32, LockCall)],
    batch: &BatchId,
    cause: Stamp,
    out: &mut Vec<(u32, ForgetCall)>,
)
    requires empty { out.old.items ≡ [] }
    requires room { length locks.now ≤ vec_capacity out.old }
    ensures { out.new.items ≡ map (forget_call_of batch.now cause) locks.now }
{
    for lock in locks {
        out.push_reserved((
            lock.0,
            ForgetCall {
                batch: *batch,
                cause,
            },
        ));
    }
}
