// A lane's slot at a node, by looking back.
ghost use Rattle.std.specs.Prelude.{◌≡◌};
ghost use Rattle.cbdc_model.specs.Slots.{Idle, number_at, slot, slot_stamp};
ghost use Rattle.same_records.specs.Slots.{slot_in};

use crate::lookups::{stamp_of, tells_lane};
use cbdc_types::{LaneId, Record, Stamp};

/// What the last record of a lane was: Idle after none, a first record, a Forget or a Done.
#[derive(Clone, Copy, PartialEq, Eq)]
pub enum Phase {
    Idle,
    InLock,
    InFinish,
    InPrepare,
    InCommit,
    InDiscard,
}

/// The number and the kind of a lane's last record.
#[derive(Clone, Copy)]
pub struct Slot {
    pub number: u64,
    pub phase: Phase,
}

// The slot of a lane whose last batch, which is done, had this number.
fn idle_after(number: u64) -> Slot
    ensures { slot_in result ≡ record { number = number; phase = Idle } }
{
    Slot {
        number,
        phase: Phase::Idle,
    }
}

// The number at a place, 0 past the end.
fn number_at(numbers: &[u64], place: usize) -> u64
    ensures { result ≡ number_at numbers.now place }
{
    match numbers.get(place) {
        Some(number) => *number,
        None => 0,
    }
}

/// The lane's slot in this journal.
pub fn slot_of(past: &[Record], lane: LaneId) -> Slot
    ensures { slot_in result ≡ slot past.now lane }
{
    let Some((r, rest)) = past.split_first() else {
        return Slot {
            number: 0,
            phase: Phase::Idle,
        };
    };
    let (batch, phase) = match r {
        Record::Lock { batch, .. } => (batch, Phase::InLock),
        Record::Finish { batch, .. } => (batch, Phase::InFinish),
        Record::Forget { batch, .. } => (batch, Phase::Idle),
        Record::Prepare { batch, .. } => (batch, Phase::InPrepare),
        Record::Commit { batch, .. } => (batch, Phase::InCommit),
        Record::Discard { batch, .. } => (batch, Phase::InDiscard),
        Record::Done { batch, .. } => (batch, Phase::Idle),
        Record::Carry { numbers, .. } => {
            return match numbers.as_slice().get(lane.0 as usize) {
                Some(number) => idle_after(*number),
                None => slot_of(rest, lane),
            };
        }
        Record::CarryStart {
            header,
            numbers,
            ..
        } => {
            if lane.0 / header.shape.lanes() != header.node.0 {
                return slot_of(rest, lane);
            }
            let place = lane.0 % header.shape.lanes();
            return idle_after(number_at(numbers.as_slice(), place as usize));
        }
        _ => return slot_of(rest, lane),
    };
    if batch.lane.0 == lane.0 {
        Slot {
            number: batch.number,
            phase,
        }
    } else {
        slot_of(rest, lane)
    }
}

/// The stamp of the lane's last record, 0 where there is none.
pub fn slot_stamp(past: &[Record], lane: LaneId) -> Stamp
    ensures { result ≡ slot_stamp past.now lane }
{
    match past.split_first() {
        None => Stamp(0),
        Some((r, rest)) => {
            if tells_lane(lane, r) {
                stamp_of(r)
            } else {
                slot_stamp(rest, lane)
            }
        }
    }
}
