// A disk, a rack and an inbox over real files.
use base_types::NodeId;
use host_devices::{FileDisk, FileInbox, FileRack};
use outside::{Disk, Inbox, Rack};
use std::fs;

// The node whose disk rows take.
const NODE: NodeId = NodeId(987);

// The file of that disk.
const FILE: &str = "rack/node-987";

// The disk of that node, with three bytes that were written to it and synced.
fn write_three(rack: &mut FileRack<&HostRuntime>) -> Option<FileDisk> {
    let mut disk = rack.take(NODE).ok()?;
    disk.write_at(0, b"abc").ok()?;
    disk.sync().ok()?;
    Some(disk)
}

// Whether the disk reads as those three bytes.
fn has_three(disk: &mut FileDisk) -> bool {
    let mut buf = [0u8; 3];
    disk.read(0, &mut buf).ok() == Some(3) && &buf == b"abc" && disk.len() == 3
}

/// Whether a disk has what was written to it and synced.
pub fn keeps_three(rt: &HostRuntime) -> bool {
    let mut rack = FileRack::new(rt, rt.alloc());
    let Some(mut disk) = write_three(&mut rack) else {
        return false;
    };
    let holds = has_three(&mut disk) && disk.capacity() == 1 << 40 && disk.faults() == 0;
    rack.put(NODE, disk);
    holds
}

// Whether another rack is refused the disk until the first has put it back, and then counts that fault.
fn is_refused_till_then(
    rack: &mut FileRack<&HostRuntime>,
    other: &mut FileRack<&HostRuntime>,
    disk: FileDisk,
) -> bool {
    let is_kept_out = other.take(NODE).is_err();
    rack.put(NODE, disk);
    let Ok(disk) = other.take(NODE) else {
        return false;
    };
    let is_same = disk.len() == 3 && disk.faults() == 1;
    other.put(NODE, disk);
    is_kept_out && is_same
}

/// Whether two racks get a disk one after the other.
pub fn is_taken_in_turn(rt: &HostRuntime) -> bool {
    let mut rack = FileRack::new(rt, rt.alloc());
    let mut other = FileRack::new(rt, rt.alloc());
    match write_three(&mut rack) {
        Some(disk) => is_refused_till_then(&mut rack, &mut other, disk),
        None => false,
    }
}

/// Whether an inbox reads the disk's file as it is, which is removed then.
pub fn is_read(rt: &HostRuntime) -> bool {
    let mut inbox = FileInbox::new(rt, rt.alloc());
    let mut buf = [b'a', b'b', b'c'];
    let two = inbox.read(FILE, 1, &mut buf).ok() == Some(2) && &buf == b"bcc";
    two && inbox.read("rack/none", 0, &mut buf).is_err() && fs::remove_file(rt, FILE).is_ok()
}
