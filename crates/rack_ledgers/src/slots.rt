// The place of a node that is opened beside others.
ghost use Rattle.std.specs.Prelude.{◌≡◌, None, Some, MatchOption, [], ◌∷◌};
ghost use Rattle.rack_ledgers.specs.Slots.{IsWaitingSlot, SlotResult, HasDisk, IsDiskIn, AreNotRefused, IsFirstNodeRefusal};

use crate::OnDisk;
use cbdc_types::{Answer, Header, NodeId};
use outside::Disk;
use std::alloc::Global;
use std::mem;

// How many bytes a node's lists have room for before the thread asks the system for more.
const ROOM: usize = 1 << 24;

/// What is at the place of a node: its disk, which waits to be opened; the node; or the disk again, and why it is none. Nothing is there while it is opened.
pub(crate) enum Slot<D, N> {
    Waiting(NodeId, D),
    Opened(N),
    Refused(D, Answer),
    Gone,
}

// Makes room for a node's lists. A block that is taken and given back at once leaves its room with the thread, whose lists then need no call of the
// system for each page. It is taken twice, for the first time the system itself gets it back.
fn make_room(alloc: Global) {
    let _ = Vec::<u8>::with_capacity(alloc, ROOM);
    let _ = Vec::<u8>::with_capacity(alloc, ROOM);
}

// What comes of a disk that is opened as this node.
fn come_of<D: Disk, N: OnDisk<D>>(
    alloc: Global,
    node: NodeId,
    ledger: &Header,
    disk: D,
) -> Slot<D, N>
    ensures { SlotResult D.Disk N.disk_of N.opens N.fits N.refusals N.refused ledger.now
        (Slot.Waiting node disk) result }
{
    make_room(alloc);
    match N::open_disk(alloc, node, Some(ledger), disk) {
        Ok(node) => Slot::Opened(node),
        Err((disk, fault)) => Slot::Refused(disk, fault),
    }
}

impl<D: Disk, N: OnDisk<D>> Slot<D, N> {
    /// Opens the disk that waits.
    pub(crate) fn open(&mut self, alloc: Global, ledger: &Header)
        requires { IsWaitingSlot self.old }
        ensures { SlotResult
            D.Disk N.disk_of N.opens N.fits N.refusals N.refused ledger.now self.old self.new }
    {
        let (node, disk) = match mem::replace(self, Slot::Gone) {
            Slot::Waiting(node, disk) => (node, disk),
            _other => unreachable!(),
        };
        match mem::replace(self, come_of(alloc, node, ledger, disk)) {
            Slot::Gone => {}
            _other => unreachable!(),
        }
    }

    /// Gives the disk back.
    pub(crate) fn into_disk(self) -> D
        requires { HasDisk self }
        ensures { IsDiskIn N.disk_of self result }
    {
        match self {
            Slot::Waiting(_, disk) => disk,
            Slot::Opened(node) => node.give_disk(),
            Slot::Refused(disk, _) => disk,
            Slot::Gone => unreachable!(),
        }
    }

    /// Why the disk is no node, if it was refused.
    pub(crate) fn refusal(&self) -> Option<Answer>
        ensures { MatchOption result (AreNotRefused (self.now ∷ [])) (IsFirstNodeRefusal (self.now ∷ [])) }
    {
        match self {
            Slot::Refused(_, fault) => Some(*fault),
            _ => None,
        }
    }
}
