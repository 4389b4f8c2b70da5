// What a row has made so far: what records speak of, and disks as one, a shard on them, or the disks by themselves.
use cbdc_types::Record;
use mem_devices::FaultDisk;
use mirror_devices::Mirror;
use replicated_shard::ReplicatedShard;
use row_records::{Known, Wrong};
use std::alloc::Global;
use std::mem;

/// Disks, and what stands on them.
#[derive(Drop)]
pub enum Place {
    /// Nothing is there.
    Gone,
    Mirror(Mirror<FaultDisk>),
    Shard(ReplicatedShard<FaultDisk>),
    Apart(Vec<FaultDisk>),
}

/// What a row has made so far, with the records that the shard had written as its disks were parted.
#[derive(Drop)]
pub struct State {
    pub wrong: Option<Wrong>,
    pub known: Known,
    pub place: Place,
    pub written: Vec<Record>,
}

impl State {
    pub fn empty(alloc: Global) -> State {
        State {
            wrong: None,
            known: Known::empty(alloc),
            place: Place::Gone,
            written: Vec::new(alloc),
        }
    }

    /// Keeps what stood before the first row alone.
    pub fn forget(&mut self) {
        self.known.forget();
        self.put(Place::Gone);
        self.written.clear();
    }

    /// Puts something in place of what is there.
    pub fn put(&mut self, place: Place) {
        let _gone = mem::replace(&mut self.place, place);
    }

    /// Takes out what is there.
    pub fn take(&mut self) -> Place {
        mem::replace(&mut self.place, Place::Gone)
    }
}
