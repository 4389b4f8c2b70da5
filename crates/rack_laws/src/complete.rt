// When what is asked of a rack is done, unless memory runs out. There is no code here that runs.
ghost use Rattle.std.specs.Prelude.{◌≡◌, ℕ, Some, List};
ghost use Rattle.cbdc_types.specs.declared.answer.Answer.{Answer as Told};
ghost use Rattle.cbdc_types.specs.declared.answer.Answer.TheVariants.{Memory};
ghost use Rattle.cbdc_model.specs.Coins.{FullTx, Output, genesis_id};
ghost use Rattle.cbdc_model.specs.Records.{Record, Shape};
ghost use Rattle.rack_ledgers.specs.Caused.{IsUnsound};
ghost use Rattle.rack_laws.specs.Openings.{NodeOpensLaw};
ghost use Rattle.rack_laws.specs.Ready.{HasKeptRoom, NoneRises, ShowsKept, limit_at};
ghost use Rattle.rack_laws.specs.Small.{NewRoomLaw};
ghost use Rattle.coord_log.specs.Opening.{IsCoord};
ghost use Rattle.shard_node.specs.Opening.{IsShardHeader};
ghost use Rattle.rack_ledgers.specs.Ledgers.{IsUnopened, IsUnopenedBy};

use outside::Rack;

/// A disk that holds its node's journal, with the room that it needs, is refused for no reason but that it failed, or that memory ran out.
pub fn node_opens_law()
    ensures coordinator { NodeOpensLaw IsCoord }
    ensures shard { NodeOpensLaw IsShardHeader }
{}

/// The nodes of a kept ledger that a rack showed open, where they have room and no count of theirs rises, unless memory runs out; and each
/// of its records is caused.
pub fn ledger_opens_law<R: Rack>(old: &R, new: &R)
    ensures opens { (K : Shape) (mint : List Output) (submissions : List FullTx) (E : ℕ
        → List Record) (answer : Told) → ShowsKept R.Disk.Disk (R.held old.now) K mint submissions E
        → HasKeptRoom K E (λ n. limit_at R.Disk.Disk (R.held old.now n))
        → NoneRises K (R.count old.now) (R.count new.now)
        → IsUnopened R.Disk.Disk (R.held old.now) (R.count old.now) (R.count new.now) answer
        → answer ≡ Memory }
    ensures minted { (K : Shape) (mint : List Output) (submissions : List FullTx) (E : ℕ
        → List Record) (answer : Told) → ShowsKept R.Disk.Disk (R.held old.now) K mint submissions E
        → HasKeptRoom K E (λ n. limit_at R.Disk.Disk (R.held old.now n))
        → NoneRises K (R.count old.now) (R.count new.now) → IsUnopenedBy R.Disk.Disk (R.held old.now)
        (R.count old.now) (R.count new.now) (Some (genesis_id mint)) answer → answer ≡ Memory }
    ensures caused { (K : Shape) (mint : List Output) (submissions : List FullTx) (E : ℕ
        → List Record) (answer : Told) → ShowsKept R.Disk.Disk (R.held old.now) K mint submissions E
        → IsUnsound R.Disk.Disk (R.held old.now) answer → ⊥ }
{}

/// A new ledger has room and stamps for small transactions, by so many bytes for each.
///
/// A new ledger has room and stamps for transactions that spend and make three coins at most, where a coordinator's disk has 353 bytes for each
/// behind its first record and a shard's 320.
pub fn new_room_law()
    ensures { NewRoomLaw }
{}
