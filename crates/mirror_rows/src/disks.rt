// Calls of disks as one.
use mem_devices::FaultDisk;
use mirror_devices::Mirror;
use outside::Disk;
use row_records::{Told, bytes_of, rest};

// Tells whether a call was done.
fn tell_done(told: &mut Told, is_done: bool) {
    told.word(if is_done { "done" } else { "fails" });
}

// `write AT PIECE..`, and `done` or `fails`
fn write(disk: &mut Mirror<FaultDisk>, words: &[&str], told: &mut Told) {
    let at = told.number_at(words, 0);
    let bytes = bytes_of(rest(words, 1), told);
    if at > disk.len() || at > disk.capacity() || bytes.len() as u64 > disk.capacity() - at {
        told.refuse("past the disk's end");
    } else {
        tell_done(told, disk.write_at(at, &bytes).is_ok());
    }
}

// `read AT PIECE..`, and how many bytes are read, or `fails`; the buffer has those bytes then, and had zeros.
fn read(disk: &mut Mirror<FaultDisk>, words: &[&str], told: &mut Told) {
    let alloc = told.alloc;
    let at = told.number_at(words, 0);
    let wanted = bytes_of(rest(words, 1), told);
    let made = vec![in alloc; 0u8; wanted.len()];
    if let Some(mut buffer) = told.made(made) {
        match disk.read(at, &mut buffer) {
            Ok(n) => told.named("read", n as u128),
            Err(_failed) => told.word("fails"),
        }
        told.check_bytes(&wanted, &buffer);
    }
}

/// A call of the disks as one: `write`, `read`, `sync` with `done` or `fails`, and `device` with how many bytes they have, how many they may have, and how
/// often they have failed.
pub fn on_mirror(disk: &mut Mirror<FaultDisk>, words: &[&str], told: &mut Told) {
    let own = rest(words, 1);
    match told.word_at(words, 0) {
        "write" => write(disk, own, told),
        "read" => read(disk, own, told),
        "sync" => tell_done(told, disk.sync().is_ok()),
        "device" => told.numbers(&[disk.len(), disk.capacity(), disk.faults()]),
        _ => told.refuse("no step of disks as one"),
    }
}
