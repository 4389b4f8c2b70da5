// What can't be answered of a ledger that disks tell. The laws have no body that runs.
ghost use Rattle.std.specs.Prelude.{ℕ, List, Some};
ghost use Rattle.cbdc_types.specs.Limits.{IsWithinLimits};
ghost use Rattle.cbdc_types.specs.declared.answer.Answer.{Answer as Told};
ghost use Rattle.cbdc_model.specs.Records.{Digest, Shape, Record};
ghost use Rattle.rack_ledgers.specs.Ledgers.{IsUnopened, IsUnopenedBy};
ghost use Rattle.rack_ledgers.specs.Caused.{IsCausedLedger, IsUnsound};
ghost use Rattle.rack_ledgers.specs.RefusalLaws.{AllTell, TellLedger, EachOpens, AllHaveRoom, IsAnswerOfBytes, IsOfRoom};

use outside::Rack;

/// Where the disks tell a ledger each record of which is caused, with their contents, no record is the first that is not.
///
/// Where the disks tell a ledger each record of which is caused, with their contents, there is no first record that is not: so `run` and `recover`
/// never answer Unsound of a rack over which they may come through.
pub fn none_uncaused_law<R: Rack>(rack: &R)
    ensures { (caused : IsCausedLedger R.Disk.Disk (R.held rack.now)) (answer : Told)
        → AllTell R.Disk.Disk (R.held rack.now) caused.shape
        → IsUnsound R.Disk.Disk (R.held rack.now) answer → ⊥ }
{}

/// Where the disks tell a ledger, with their contents, none of its nodes is refused as NotReady, Damaged or Foreign, whatever room there is, and
/// none as Full where the disks have room.
///
/// The disks tell a ledger where, for some shape within the limits and some genesis, each node's disk is told, with its content, which opens to just
/// the node's journal under the node's header. No node of it can then be refused as NotReady, Damaged or Foreign; nor as Full, where each disk has
/// room for its journal and for what is kept for its open batches. So it is whatever mint is asked for, if none is or the one that began this ledger.
/// What `run` and `recover` (of a kept ledger) and `status` promise where they come through is all that the law asks, and so is what `audit`
/// promises. So of a rack whose disks are told, with their contents, and over which one of them may come through, it never answers NotReady, Damaged,
/// Foreign or Full as it opens the nodes.
pub fn none_refused_law<R: Rack>(rack: &R)
    // Where no mint is asked for.
    ensures opened { (K : Shape) (genesis : Digest) (J : ℕ → List Record) (before now : ℕ → ℕ) (answer : Told)
        → TellLedger R.Disk.Disk (R.held rack.now) K genesis J
        → IsAnswerOfBytes answer → (IsOfRoom answer → AllHaveRoom R.Disk.Disk (R.held rack.now) K J)
        → IsUnopened R.Disk.Disk (R.held rack.now) before now answer → ⊥ }
    // Where the mint that is asked for began it.
    ensures minted { (K : Shape) (genesis : Digest) (J : ℕ → List Record) (before now : ℕ → ℕ) (answer : Told)
        → TellLedger R.Disk.Disk (R.held rack.now) K genesis J
        → IsAnswerOfBytes answer → (IsOfRoom answer → AllHaveRoom R.Disk.Disk (R.held rack.now) K J)
        → IsUnopenedBy R.Disk.Disk (R.held rack.now) before now (Some genesis) answer → ⊥ }
    // Disks that are told, with their contents, tell the ledger to whose journals whatever is told of them opens.
    ensures told { (K : Shape) (genesis : Digest) (J : ℕ → List Record) → IsWithinLimits K
        → EachOpens R.Disk.Disk (R.held rack.now) K genesis J → AllTell R.Disk.Disk (R.held rack.now) K
        → TellLedger R.Disk.Disk (R.held rack.now) K genesis J }
{}
