// A shard in memory that has one coin.
use cbdc_types::{Hash, Header, List, Record};
use gate_journal::Journal;
use mem_devices::PlainDisk;
use record_log::write_record;
use shard_node::ShardNode;
use std::alloc::Global;

/// A list of one.
pub fn only<T: Drop>(alloc: Global, item: T) -> Option<List<T>> {
    let mut list = List::new(alloc);
    match list.push(item) {
        Ok(()) => Some(list),
        Err(_) => None,
    }
}

// More bytes than the Genesis of one coin has.
const ROOM: usize = 200;

// The disk of a journal that has no body yet, with this one; nothing is there where that fails.
fn appended(mut journal: Journal<PlainDisk>, body: &[u8]) -> Option<PlainDisk> {
    if body.len() > ROOM {
        return None;
    }
    match journal.reserve(ROOM as u64) {
        Ok(()) => {}
        Err(_) => return None,
    }
    match journal.append(body) {
        Ok(()) => Some(journal.into_disk()),
        Err(_) => None,
    }
}

// A disk of this size with a body that is to be its first; nothing is there where that fails.
fn written(alloc: Global, body: &[u8], size: usize) -> Option<PlainDisk> {
    match PlainDisk::new(alloc, size) {
        Ok(disk) => match Journal::format(alloc, disk) {
            Ok(journal) => appended(journal, body),
            Err(_) => None,
        },
        Err(_) => None,
    }
}

// A disk of this size with the Genesis of one coin.
fn disk_of(alloc: Global, header: Header, coin: Hash, size: usize) -> Option<PlainDisk> {
    let hashes = only(alloc, coin)?;
    let first = Record::Genesis { header, hashes };
    let mut body = Vec::new(alloc);
    match write_record(&first, &header, &mut body) {
        Ok(()) => written(alloc, body.as_slice(), size),
        Err(_) => None,
    }
}

// The shard on a disk.
fn opened_on(alloc: Global, disk: PlainDisk) -> Option<ShardNode<PlainDisk>> {
    match ShardNode::open(alloc, disk) {
        Ok(node) => Some(node),
        Err(_) => None,
    }
}

/// A shard that has one coin, on a disk of this size.
pub fn opened(
    alloc: Global,
    header: Header,
    coin: Hash,
    size: usize,
) -> Option<ShardNode<PlainDisk>> {
    opened_on(alloc, disk_of(alloc, header, coin, size)?)
}
