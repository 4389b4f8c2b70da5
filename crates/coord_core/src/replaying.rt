// A coordinator takes in the records of its journal, as any node does.
use crate::CoordCore;
use cbdc_types::{Header, NodeOpenFault, Record};
use record_grammar::Core;
use std::alloc::{AllocError, Global};

impl Core for CoordCore {
    ghost use Rattle.record_grammar.specs.Kinds.{IsCoord, IsGenesis};
    ghost use Rattle.coord_core.specs.Lanes.{CoordAdmits};
    ghost use Rattle.coord_core.specs.Stands.{IsRoomyFor, CoordHasTaken};

    ghost header = { λ c. c.header };

    ghost stands = { IsRoomyFor };

    ghost admits = { CoordAdmits };

    ghost takes = { CoordHasTaken };

    ghost kind = { IsCoord };

    ghost other = { IsGenesis };

    fn begin(alloc: Global, h: &Header, first: &Record) -> Result<CoordCore, NodeOpenFault> {
        match first {
            Record::Start { .. } => match CoordCore::new(alloc, h) {
                Ok(core) => Ok(core),
                Err(_) => Err(NodeOpenFault::Memory),
            },
            Record::Genesis { .. } => Err(NodeOpenFault::OtherKind),
            _ => unreachable!(),
        }
    }

    fn admit_known(&mut self, next: &Record) -> Result<bool, AllocError> {
        CoordCore::admit_known(self, next)
    }

    fn apply(&mut self, next: &Record) {
        CoordCore::apply(self, next)
    }

    fn kept_room(&self) -> u64 {
        CoordCore::kept_room(self)
    }
}
