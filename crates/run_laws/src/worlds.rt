// Further laws of every kept world: what is committed, what is in flight, that stamps above 2^62 are few, and recovery. Nothing of them runs.
ghost use Rattle.run_laws.specs.Laws.{CheckedLaw, CountedLaw, FewLateLaw, LongerLaw, NoneOpenLaw, NoneRefusedLaw, OnceLaw, PassLaw, WorldRecoveryLaw, ShardKindsLaw, StuckLaw, SpentLaw};

/// Of what is committed in a kept history no two inputs name one outpoint, in one transaction or in two, and no id is committed twice.
/// This holds at every moment, and not in recovered worlds alone.
pub fn once_law()
    ensures { OnceLaw }
{}

/// An input of a committed transaction, Locked or not, is in none of the three sets that make up the book's hashes.
///
/// An input of a committed transaction, still Locked or not, is neither Unspent, nor Locked for an entry that isn't committed, nor an output that
/// is still to come.
pub fn spent_law()
    ensures { SpentLaw }
{}

/// Where every lane is idle, no hash is Locked for an entry that is not committed, and no output of a committed transaction is still to
/// come.
pub fn none_open_law()
    ensures { NoneOpenLaw }
{}

/// Kept journals stay kept as they grow at their ends, where each new record is after its journal and caused by beginnings of the
/// journals. Nothing is asked anew of the records that stood there.
pub fn longer_law()
    ensures { LongerLaw }
{}

/// The journals of a kept world are kept, whichever of the records in flight are counted.
pub fn counted_law()
    ensures { CountedLaw }
{}

/// The events that write a kept history in its order, with which it is reached from the first world, begin no Prepare but with
/// compact forms of proper submissions. So what is kept is exactly what runs of such events reach.
pub fn pass_law()
    ensures { PassLaw }
{}

/// No stamp of kept journals is above 2^62 by more than the later records of one batch a lane.
///
/// No stamp of kept journals is above 2^62 by more than the records of one batch a lane that come behind its Locks: a Finish and a Forget of each
/// shard, a Commit, a Discard and a Done.
pub fn few_late_law()
    ensures { FewLateLaw }
{}

/// No record that is caused by kept journals has a stamp above 2^62 + 2^20. So what comes behind the Locks of a batch is never
/// refused for its stamp.
pub fn none_refused_law()
    ensures { NoneRefusedLaw }
{}

/// From any kept world where no Lock that is still to come needs a stamp above 2^62, whatever stamps it has: the nodes are opened
/// again, each keeping what was in flight or not, then what is still to come of the open batches is written, with no new Prepare.
/// The world that this leads to is kept and recovered.
pub fn recovery_law()
    ensures { WorldRecoveryLaw }
{}

/// From any kept world at all: the same leads to a recovered world, or, by Locks alone, to a world in which a Lock that is still to
/// come needs a stamp above 2^62. So nothing else ever stands in the way of recovery.
pub fn stuck_law()
    ensures { StuckLaw }
{}

/// What a repeated call is answered, and the phase order of records, rest on what the program itself checks: whatever hashes the first
/// records hold, and whatever transactions are prepared.
pub fn checked_law()
    ensures { CheckedLaw }
{}

/// A shard has no record of a batch but Locks, Finishes and Forgets.
pub fn shard_kinds_law()
    ensures { ShardKindsLaw }
{}
