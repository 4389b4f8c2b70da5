//! Laws of whole runs: what lanes say of their turns, taken to the journals of the whole ledger; of whole waves; of room and stamps for all that is
//! still to come; and further laws of every kept world. They have no body that runs.
//!
//! - Of the laws of every kept world `once_law`, `spent_law` and `none_open_law` hold where no hashes clash (`Clean`), the
//!   others ask nothing of hashes. No crate of the program rests on them, but that late stamps are few is used by `stop_law`.
//! - `kept_is_checked_law`, `checked_turn_law`, `checked_rest_law`, `checked_resume_law`: No contract of a public function cites them; the proofs
//!   of `file_runs` use the last two, those of `thread_laws` that of idle lanes.
//! - `proper_law`, `grant_law`, `stop_law`: No contract of a public function cites them; the proofs of `thread_laws` use `stop_law`.
//! - Open: the laws of kept worlds write all Locks first; the program brings one lane after another to its end, and what stops it is said of its own calls.
#![tactic(auto)]

mod ample;
mod waves;
mod worlds;

ghost use Rattle.run_laws.specs.Checked.{KeptIsCheckedLaw};
ghost use Rattle.run_laws.specs.Faults.{GrantLaw, StopLaw};
ghost use Rattle.run_laws.specs.Flights.{FlownLaw, FlushLaw};
ghost use Rattle.run_laws.specs.Members.{CompactLaw, MemberLaw};
ghost use Rattle.run_laws.specs.Open.{ResumeLaw, CheckedResumeLaw};
ghost use Rattle.run_laws.specs.Runs.{TurnLaw, CheckedTurnLaw, RestLaw, CheckedRestLaw, OthersLaw, NodesLaw, SoundLaw, ProperLaw, GrowLaw, EndLaw, PartLaw};
ghost use Rattle.run_laws.specs.Turns.{TakenLaw, SeenLaw, EndsLaw, PreparedLaw, OpenTurnLaw, ResumedTurnLaw};
ghost use Rattle.run_laws.specs.WaveSteps.{ResumingBeginsLaw, ResumingStepLaw, ResumingSkipLaw, ResumingEndsLaw, WavesBeginLaw, WavesStepLaw};

pub use ample::{idle_room_law, kept_room_law, lock_room_law, prepare_room_law, row_law};
pub use waves::{begin_law, between_law, free_law, free_run_law, place_law};
pub use worlds::{
    checked_law, counted_law, few_late_law, longer_law, none_open_law, none_refused_law, once_law,
    pass_law, recovery_law, shard_kinds_law, spent_law, stuck_law,
};

/// A lane's turn keeps the journals, whatever it came to.
pub fn turn_law()
    ensures { TurnLaw }
{}

/// Kept journals are checked: each record is after its journal and caused.
pub fn kept_is_checked_law()
    ensures { KeptIsCheckedLaw }
{}

/// A lane's turn leaves checked journals checked, whatever it prepared and whatever it came to.
pub fn checked_turn_law()
    ensures { CheckedTurnLaw }
{}

/// In kept journals a lane that is idle at its coordinator is settled: the driver's condition for its next batch.
pub fn rest_law()
    ensures { RestLaw }
{}

/// So it is in checked journals.
pub fn checked_rest_law()
    ensures { CheckedRestLaw }
{}

/// A lane's turn leaves the slots of the other lanes, and prepares nothing for them.
pub fn others_law()
    ensures { OthersLaw }
{}

/// What the nodes say of themselves: each record of a node's journal is after those below it.
pub fn nodes_law()
    ensures { NodesLaw }
{}

/// A transaction that a sentinel refuses for no reason is proper: what the laws ask of prepared transactions.
pub fn sound_law()
    ensures { SoundLaw }
{}

/// A transaction is proper exactly where a sentinel has no reason to refuse it but a verdict.
pub fn proper_law()
    ensures { ProperLaw }
{}

/// What is kept stays kept when more is submitted.
pub fn grow_law()
    ensures { GrowLaw }
{}

/// Where journals are kept and every lane is idle, the sentence holds of them.
///
/// Where no hashes clash (`Clean`).
pub fn end_law()
    ensures { EndLaw }
{}

/// The parts of a batch within the limits are within them.
pub fn part_law()
    ensures { PartLaw }
{}

/// In kept journals a lane that is not idle at its coordinator has an open batch as recovery wants it: its Prepare stands, with
/// transactions within the limits, and behind it what the lane's phase says.
pub fn resume_law()
    ensures { ResumeLaw }
{}

/// So it is in checked journals.
pub fn checked_resume_law()
    ensures { CheckedResumeLaw }
{}

/// In checked journals no shard refuses a call of a lane's open batch.
pub fn grant_law()
    ensures { GrantLaw }
{}

/// In checked journals a lane stops with Full or ClockEnd only at the record that it needs next, by its numbers there, with a disk's fault
/// only where that node's disk has failed since it was opened, and never because a shard refuses.
///
/// In checked journals a lane stops with Full or ClockEnd only at the record that it needs next at that node, with the numbers of the journal
/// there: its next Prepare, or the Lock of a concerned shard that has not come to the batch. It stops with a disk's fault only where that node's
/// disk has failed since it was opened, and never because a shard refuses.
pub fn stop_law()
    ensures { StopLaw }
{}

/// What a lane's driver, or the resuming of its batch, leaves is a turn of the lane, whatever it came to.
pub fn taken_law()
    ensures { TakenLaw }
{}

/// The journals of all nodes are those of the coordinators and of the shards.
pub fn seen_law()
    ensures { SeenLaw }
{}

/// Every journal grows at its end over a turn.
pub fn ends_law()
    ensures { EndsLaw }
{}

/// A turn prepares what was asked of it and nothing else.
pub fn prepared_law()
    ensures { PreparedLaw }
{}

/// In kept journals a turn that prepares nothing writes records of the lane's open batch alone.
pub fn open_turn_law()
    ensures { OpenTurnLaw }
{}

/// A batch that was taken up: its lane's turn brought it to its end, and did nothing else.
pub fn resumed_turn_law()
    ensures { ResumedTurnLaw }
{}

/// Resuming begins with nothing done.
pub fn resuming_begins_law()
    ensures { ResumingBeginsLaw }
{}

/// It goes on by a turn that brings the next lane's open batch to its end.
pub fn resuming_step_law()
    ensures { ResumingStepLaw }
{}

/// It passes over lanes that are idle.
pub fn resuming_skip_law()
    ensures { ResumingSkipLaw }
{}

/// Behind the last lane the journals are resumed.
pub fn resuming_ends_law()
    ensures { ResumingEndsLaw }
{}

/// A run begins with what was open resumed.
pub fn waves_begin_law()
    ensures { WavesBeginLaw }
{}

/// It goes on by one file more.
pub fn waves_step_law()
    ensures { WavesStepLaw }
{}

/// The compact form of a transaction within the limits is within them.
pub fn compact_law()
    ensures { CompactLaw }
{}

/// The compact form of a sound submission is that of a proper one.
pub fn member_law()
    ensures { MemberLaw }
{}

/// What is in flight behind a turn was so before, or is caused by what the journals have.
pub fn flown_law()
    ensures { FlownLaw }
{}

/// Journals stay kept where what was in flight stands behind them or not.
pub fn flush_law()
    ensures { FlushLaw }
{}
