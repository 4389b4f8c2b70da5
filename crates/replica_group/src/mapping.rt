// What a group's events are at its node of a world.
ghost use Rattle.std.specs.Prelude.{◌≡◌, ◌∷◌, [], Bool, map, IfOk};
ghost use Rattle.cbdc_model.specs.World.{Begin, Crash, Reopen};
ghost use Rattle.plain_check.specs.Events.{event_in};
ghost use Rattle.shard_replica.specs.Worlds.{world_events as events_of};

use crate::group::Group;
use crate::members::{records_at, term_at};
use cbdc_types::{NodeId, Record};
use plain_check::{Event, copy_of_record};
use shard_replica::GroupEvent;
use std::alloc::{AllocError, Global};

// A record is begun.
fn begun(alloc: Global, node: NodeId, r: &Record) -> Result<Vec<Event>, AllocError>
    ensures { IfOk result (λ es. map event_in es.items ≡ Begin node r.now ∷ []) }
{
    let record = copy_of_record(r)?;
    let mut all = Vec::new(alloc);
    all.push(Event::Begin(node, record))?;
    Ok(all)
}

// A node crashes, and is opened again.
fn reopened(alloc: Global, node: NodeId, kept: bool) -> Result<Vec<Event>, AllocError>
    ensures { IfOk result (λ es. map event_in es.items ≡ Crash node kept ∷ Reopen node ∷ []) }
{
    let mut all = Vec::new(alloc);
    all.push(Event::Crash(node, kept))?;
    all.push(Event::Reopen(node))?;
    Ok(all)
}

impl Group {
    /// What an event of the group is at its node of a world.
    pub fn world_events(
        &self,
        alloc: Global,
        node: NodeId,
        event: &GroupEvent,
    ) -> Result<Vec<Event>, AllocError>
        ensures { IfOk result (λ es. map event_in es.items ≡ events_of node self.now event.now) }
    {
        match event {
            GroupEvent::Take(r) => {
                if self.records().len() as u64 == self.answered {
                    return begun(alloc, node, r);
                }
            }
            GroupEvent::Answer => {
                if self.is_told() && self.flying {
                    let mut all = Vec::new(alloc);
                    all.push(Event::End(node))?;
                    return Ok(all);
                }
            }
            GroupEvent::Promote(b) => {
                if self.is_backup(*b) && term_at(&self.members, *b) == self.term {
                    let holds = records_at(&self.members, *b).len() == self.records().len();
                    return reopened(alloc, node, self.flying && holds);
                }
            }
            _ => {}
        }
        Ok(Vec::new(alloc))
    }
}
