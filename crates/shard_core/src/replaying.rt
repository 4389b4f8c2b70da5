// A shard takes in the records of its journal, as any node does.
ghost use Rattle.std.specs.Prelude.{◌∷◌, List};
ghost use Rattle.cbdc_model.specs.Records.{Record as AnyRecord};

use crate::ShardCore;
use cbdc_types::{Header, NodeOpenFault, Record};
use record_grammar::Core;
use std::alloc::{AllocError, Global};

impl Core for ShardCore {
    ghost use Rattle.record_grammar.specs.Kinds.{IsShardHeader, IsStart};
    ghost use Rattle.shard_core.specs.Admitted.{ShardAdmits};
    ghost use Rattle.shard_core.specs.Stands.{ShardStands};

    ghost header = { λ core. core.header };

    ghost stands = { ShardStands };

    ghost admits = { ShardAdmits };

    ghost takes = { λ old new next. (J : List AnyRecord) → ShardStands old J → ShardStands new (next ∷ J) };

    ghost kind = { IsShardHeader };

    ghost other = { IsStart };

    fn begin(alloc: Global, h: &Header, first: &Record) -> Result<ShardCore, NodeOpenFault> {
        match first {
            Record::Genesis { hashes, .. } => match ShardCore::new(alloc, h, hashes.as_slice()) {
                Ok(core) => Ok(core),
                Err(_) => Err(NodeOpenFault::Memory),
            },
            Record::Start { .. } => Err(NodeOpenFault::OtherKind),
            _ => unreachable!(),
        }
    }

    fn admit_known(&mut self, next: &Record) -> Result<bool, AllocError> {
        ShardCore::admit_known(self, next)
    }

    fn apply(&mut self, next: &Record) {
        match next {
            Record::Lock { .. } => self.apply_lock(next),
            Record::Finish { .. } => self.apply_finish(next),
            Record::Forget { .. } => self.apply_forget(next),
            _ => unreachable!(),
        }
    }

    fn kept_room(&self) -> u64 {
        ShardCore::kept_room(self)
    }
}
