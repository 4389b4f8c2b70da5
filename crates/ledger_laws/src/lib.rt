//! The laws of the ledger: functions with an empty body, whose contracts are the theorems. Nothing of them runs.
//!
//! - `fold_law`, `flow_law`, `headline_law`, `recovered_law`, `idle_law`, `maker_law`: Where no hashes clash (`Clean`). The other laws ask nothing of hashes.
//! - Laws about every history of the model; they have no body that runs.
#![tactic(auto)]

ghost use Rattle.ledger_laws.specs.Laws.{AnswerLaw, CutLaw, FlightLaw, FlowLaw, FoldLaw, HeadlineLaw, IdleLaw, KeptLaw, LateLaw, LocalLaw, MakerLaw, MoreLaw, OneHistoryLaw, PhaseLaw, PlainLaw, ReachLaw, RecoveredLaw, RecoveryLaw, SettledLaw, StepLaw, WaveLaw};

/// Where no two coins or transactions share a hash, the committed transactions of every kept
/// history can be spent one after another from the mint, each finding all its inputs. The book
/// that is left has the value minted, and money in it is what was minted plus issued less redeemed.
/// Its hashes are those that are Unspent at their shards, those
/// that are Locked for an entry which is not committed, and the outputs of committed transactions
/// that are not yet there; no hash is in two of these sets.
pub fn fold_law()
    ensures { FoldLaw }
{}

/// Where no hashes clash: whatever is counted of an output, the coins of that book and what the
/// committed transactions took come to as much as the mint and what they made.
pub fn flow_law()
    ensures { FlowLaw }
{}

/// A transaction that names money alone, with equal sums, has none of the refusals of permits and burnt
/// outputs, and keeps the money. So one that was proper before there were permits is proper still, where
/// it names neither a permit nor a burnt output.
pub fn plain_law()
    ensures { PlainLaw }
{}

/// From the first world: whatever records are begun and ended, whichever nodes crash, with or without what was in flight, and are opened again, and
/// whichever calls are made again however old. The journals always have one history by stamp and node in which each record follows its journal and
/// is caused by records before it, and what is in flight follows and is caused too.
pub fn kept_law()
    ensures { KeptLaw }
{}

/// The same for one step from any world that is kept so far.
pub fn step_law()
    ensures { StepLaw }
{}

/// The headline. For every list of steps, repeats and crashes, where no hashes clash (`Clean`):
/// once the open batches are recovered, the shards together hold exactly the hashes of the coins
/// left by folding the committed transactions in the order of their commits. Each found all its
/// inputs unspent, none was spent twice, no transaction is committed twice, money is what was
/// minted plus issued less redeemed, the coins' value is the value minted, and every batch is
/// finished alike on all its shards.
pub fn headline_law()
    ensures { HeadlineLaw }
{}

/// The same sentence of any world that is kept and recovered, however it came about.
pub fn recovered_law()
    ensures { RecoveredLaw }
{}

/// A hash that is Unspent or Locked at its shard was minted, or the transaction that makes it is
/// committed, and the Finish that made it at this shard stands. This Commit and this Finish have
/// smaller stamps than any Lock that holds the hash.
pub fn maker_law()
    ensures { MakerLaw }
{}

/// A call at a shard that its batch concerns, whose cause stands, is answered with a new record,
/// with what was answered before, or as stale, however old the call is; never with another refusal.
/// It asks nothing of hashes.
pub fn answer_law()
    ensures { AnswerLaw }
{}

/// Every kept history is that of a run from the first world: its records begun and ended in its
/// order. So what is kept is no more than what can be reached.
pub fn reach_law()
    ensures { ReachLaw }
{}

/// Journals have one history: two lists of rows by stamp and node with the same journals are the same.
pub fn one_history_law()
    ensures { OneHistoryLaw }
{}

/// An older part of a kept history is kept.
pub fn cut_law()
    ensures { CutLaw }
{}

/// The same sentence of journals that are kept, where every lane is idle at its coordinator.
pub fn idle_law()
    ensures { IdleLaw }
{}

/// Journals are kept exactly where each record behind the first ones follows its journal and is
/// caused by records that stood in beginnings of the journals: one fact for each record, which
/// stays when journals grow. In particular such journals have a history by stamp and node.
pub fn local_law()
    ensures { LocalLaw }
{}

/// What the lanes of a wave made keeps the journals, where each lane shows only that its own records
/// are caused by what it had seen, and each node that its records follow its journal. Nothing is
/// asked of how the lanes came between each other.
pub fn wave_law()
    ensures { WaveLaw }
{}

/// What is kept stays kept when more transactions are submitted.
pub fn more_law()
    ensures { MoreLaw }
{}

/// A world is kept where its journals are kept, and each record in flight follows its node's
/// journal and was caused by records in beginnings of the journals.
pub fn flight_law()
    ensures { FlightLaw }
{}

/// The records of each batch stand in phase order over the nodes with rising stamps: Prepare, the
/// Locks, Commit, the Finishes, Discard, the Forgets, Done. A batch of a lane is prepared only
/// behind the Done of the earlier ones.
pub fn phase_law()
    ensures { PhaseLaw }
{}

/// At most one batch of a lane has records with stamps above 2^62.
pub fn late_law()
    ensures { LateLaw }
{}

/// Where a lane is idle at its coordinator, it is idle at each shard too, with no greater number,
/// and its last record there has no greater stamp than the coordinator's newest. So no shard
/// refuses the next batch.
pub fn settled_law()
    ensures { SettledLaw }
{}

/// From any kept world in which a stamp is left for each record that may still come, and an early
/// one where a Lock is still to come: the nodes are opened again, each keeping what was in flight or
/// not, and then what is still to come of the open batches is written, with no new Prepare. The world
/// that this leads to is kept and recovered. A lane's batch has three records for each shard at most,
/// and three more.
pub fn recovery_law()
    ensures { RecoveryLaw }
{}
