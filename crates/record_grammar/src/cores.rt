// A node without its disk.
ghost use Rattle.std.specs.Prelude.{◌≡◌, ◌↔◌, ◌-◌, ◌^◌, ◌∷◌, [], List, min, IsTrue, IfOk, IfErr};
ghost use Rattle.std.specs.Bool.{OnTrue};
ghost use Rattle.cbdc_types.specs.Limits.{IsWithinLimits};
ghost use Rattle.cbdc_model.specs.Records.{Header as AnyHeader, Record as AnyRecord};
ghost use Rattle.cbdc_model.specs.Grammar.{IsInGrammar};
ghost use Rattle.cbdc_model.specs.After.{After, IsJournal};
ghost use Rattle.cbdc_model.specs.Room.{kept_room as room_kept};
ghost use Rattle.record_grammar.specs.Kinds.{IsUnbegun};

use cbdc_types::{Header, NodeOpenFault, Record};
use std::alloc::{AllocError, Global};

/// The pure core of a node, of either kind: what its journal leaves in memory. It begins with a journal's first record, takes in each next one,
/// and stands for the journal that they make.
///
/// `coord_core::CoordCore` and `shard_core::ShardCore` keep it; `node_journal` opens a disk into a log and a core.
pub trait Core: Sized + Drop {
    /// Its header.
    ghost header: { Self → AnyHeader };

    /// It stands for this journal, the newest record first.
    ghost stands: { Self → List AnyRecord → Type 0 };

    /// It can take this record in: the memory for it is there.
    ghost admits: { Self → AnyRecord → Type 0 };

    /// What else is known of it behind a record that it took in.
    ghost takes: { Self → Self → AnyRecord → Type 0 };

    /// The header names a node of this kind.
    ghost kind: { AnyHeader → Type 0 };

    /// A first record of the other kind.
    ghost other: { AnyRecord → Type 0 };

    /// The core behind a journal's first record; or that this is one of the other kind, or that memory ran out.
    fn begin(alloc: Global, h: &Header, first: &Record) -> Result<Self, NodeOpenFault>
        requires limits { IsWithinLimits h.now.shape }
        requires journal { IsJournal h.now (first.now ∷ []) }
        ensures header { IfOk result (λ core. header core ≡ h.now) }
        ensures stands { IfOk result (λ core. stands core (first.now ∷ [])) }
        ensures kind { IfOk result (λ core. kind h.now) }
        ensures unbegun { IfErr result (IsUnbegun other first.now) };

    /// Whether a record of the grammar is next in the journal that it stands for. Where it is, the memory to take it in is there.
    fn admit_known(&mut self, next: &Record) -> Result<bool, AllocError>
        requires { IsInGrammar (header self.old) next.now }
        ensures header { header self.new ≡ header self.old }
        ensures stands { (J : List AnyRecord) → stands self.old J → stands self.new J }
        ensures admitted { IfOk result (λ yes. OnTrue yes (admits self.new next.now)) }
        ensures next { IfOk result (λ yes. (J : List AnyRecord)
            → stands self.old J → IsJournal (header self.old) J → kind (header self.old)
            → (IsTrue yes ↔ After (header self.old) J next.now)) };

    /// Takes a record in.
    fn apply(&mut self, next: &Record)
        requires { admits self.old next.now }
        ensures header { header self.new ≡ header self.old }
        ensures stands { (J : List AnyRecord) → stands self.old J → stands self.new (next.now ∷ J) }
        ensures takes { takes self.old self.new next.now };

    /// The bytes that are kept free for the later records of unfinished batches, or the greatest number where they are more.
    fn kept_room(&self) -> u64
        ensures { (J : List AnyRecord) → stands self.now J → IsJournal (header self.now) J
            → result ≡ min (room_kept (header self.now).shape J) (2 ^ 64 - 1) };
}
