// What stands on a disk of the rack.
ghost use Rattle.std.specs.Prelude.{◌≡◌, ◌≤◌, ℕ, List, Option, IfOk, IfErr, MatchResult};
ghost use Rattle.std.specs.Option.{option_copied};
ghost use Rattle.outside.specs.Counts.{Rose};
ghost use Rattle.outside.specs.Images.{Tells, Leaves};
ghost use Rattle.cbdc_types.specs.declared.answer.Answer.{Answer as Told};
ghost use Rattle.cbdc_types.specs.declared.answer.Answer.TheVariants.{Memory, DiskFault};
ghost use Rattle.cbdc_types.specs.declared.record.Header.{Header as Asked};
ghost use Rattle.rack_ledgers.specs.Places.{IsOpening};

use cbdc_types::{Answer, Header, NodeId};
use outside::Disk;
use std::alloc::Global;

/// A coordinator or a shard on its disk, or a disk that is to become one.
pub trait OnDisk<D: Disk>: Sized {
    /// Its disk.
    ghost disk_of: { Self → D };

    /// It stands for a disk with this content.
    ghost opens: { Self → List ℕ → Type 0 };

    /// As it is opened, it is the node with this number, of the ledger with this header (its number aside) or of any ledger.
    ghost fits: { ℕ → Option Asked → Self → Type 0 };

    /// Why a disk with so much room and this content is no such node.
    ghost refused: { ℕ → Option Asked → ℕ → List ℕ → Told → Type 0 };

    /// The refusals that there may be, whatever the disk.
    ghost refusals: { Told → Type 0 };

    /// Running out of memory and a fault of the disk may always be.
    ghost free: { (node : ℕ) (ledger : Option Asked) (limit : ℕ) (c : List ℕ) → refused node ledger limit c Memory × refused node ledger limit c (DiskFault node) };

    ghost may_fail: { (node : ℕ) → refusals Memory × refusals (DiskFault node) };

    /// Opens what should stand on the disk of this node, of the ledger with this header (its number aside) or
    /// of any ledger. A refusal hands the disk back.
    fn open_disk(
        alloc: Global,
        node: NodeId,
        ledger: Option<&Header>,
        disk: D,
    ) -> Result<Self, (D, Answer)>
        ensures opens { IfOk result (λ n. Tells (D.content disk) (opens n)) }
        ensures fits { IfOk result (fits node (option_copied ledger.entry)) }

        // Which refusal it is.
        ensures refusal { IfErr result (λ e.
            Tells (D.content disk) (λ c. refused node (option_copied ledger.entry) (D.limit disk) c e.1)) }
        ensures kind { IfErr result (λ e. refusals e.1) }
        ensures fault { IfErr result (λ e. IsOpening node (D.count disk) (D.count e.0) e.1) }
        ensures later { MatchResult result
            (λ n. D.count disk ≤ D.count (disk_of n)) (λ e. D.count disk ≤ D.count e.0) }
        ensures limit { MatchResult result
            (λ n. D.limit (disk_of n) ≡ D.limit disk) (λ e. D.limit e.0 ≡ D.limit disk) }

        // Unless it failed, it reads as before, and it changes nothing that a crash may leave.
        ensures same { MatchResult result (λ n. D.content (disk_of n) ≡ D.content disk)
            (λ e. (Rose (D.count disk) (D.count e.0) → ⊥) → D.content e.0 ≡ D.content disk) }
        ensures leaves { MatchResult result
            (λ n. Leaves D.tells_past D.moment D.images_since D.images disk (disk_of n) (D.images disk))
            (λ e. Leaves D.tells_past D.moment D.images_since D.images disk e.0 (D.images disk)) };

    /// Gives the disk back.
    fn give_disk(self) -> D
        ensures { result ≡ disk_of self };
}
