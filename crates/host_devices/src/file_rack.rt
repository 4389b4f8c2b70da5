// The disks of the nodes as files of one folder.
ghost use Rattle.std.specs.Prelude.{◌≡◌, ◌≤◌, ℕ, None, IfOk, IfSome, Some};

use crate::FileDisk;
use base_types::NodeId;
use outside::{Disk, Failed, Rack};
use std::alloc::Global;
use std::fs::{File, OpenOptions};
use std::rt::Files;
use std::{fs, io};

/// Node n is the file `rack/node-NNN`, and one program's at a time: taking a node locks its file (`flock`, which the file system has to know)
/// until its disk is put back or the program ends, and a file that another program holds can't be taken. There is one count of faults for all.
///
/// `take` takes a node's file under a lock, so that a file which another program has is a counted fault. Tested: in the rows of `device_rows`, and
/// by two programs at once over one rack (`tools/gate/two-at-once`).
#[derive(Drop)]
pub struct FileRack<R: Files<File = File> + Drop> {
    rt: R,
    alloc: Global,
    faults: u64,
}

impl<R: Files<File = File> + Drop> FileRack<R> {
    /// The rack in the current folder.
    pub fn new(rt: R, alloc: Global) -> FileRack<R> {
        FileRack {
            rt,
            alloc,
            faults: 0,
        }
    }
}

// Opens the file for reading and writing, if it is there.
fn open_file<R: Files<File = File>>(rt: &R, path: &str, made: bool) -> io::Result<File> {
    let mut options = OpenOptions::new();
    options.read(true);
    options.write(true);
    options.create(made);
    options.open(rt, path)
}

// Makes the file and its folder, where they are not there.
fn make_file<R: Files<File = File>>(rt: &R, path: &str) -> io::Result<File> {
    fs::create_dir_all(rt, "rack")?;
    open_file(rt, path, true)
}

// The file, and a crash keeps its name: a file that is there may be one whose making was cut short.
fn named_file<R: Files<File = File>>(rt: &R, path: &str) -> io::Result<File> {
    let file = match open_file(rt, path, false) {
        Ok(found) => found,
        Err(_) => make_file(rt, path)?,
    };
    fs::open(rt, "rack")?.sync_all()?;
    fs::open(rt, ".")?.sync_all()?;
    Ok(file)
}

// The file under a lock that no other program shares; None where one holds it.
fn own(file: File) -> Option<File> {
    match file.try_lock() {
        Ok(()) => Some(file),
        Err(_) => None,
    }
}

// The disk of a node, with a count of faults to begin with.
fn open_node<R: Files<File = File>>(
    rt: &R,
    alloc: Global,
    node: u32,
    faults: u64,
) -> Option<FileDisk>
    ensures { (d : FileDisk) → result ≡ Some d → d.faults ≡ faults }
{
    let Ok(path) = format!(in alloc; "rack/node-{node:03}") else {
        return None;
    };
    match named_file(rt, path.as_str()) {
        Ok(file) => FileDisk::new(own(file)?, faults),
        Err(_) => None,
    }
}

impl<R: Files<File = File> + Drop> Rack for FileRack<R> {
    type Disk = FileDisk;

    ghost held = { λ r n. None };

    ghost count = { λ r n. r.faults };

    ghost can_take = { λ r n. Unit {0} };

    ghost can_put = { λ r n k. Unit {0} };

    fn take(&mut self, node: NodeId) -> Result<FileDisk, Failed> {
        match open_node(&self.rt, self.alloc, node.0, self.faults) {
            Some(disk) => Ok(disk),
            None => {
                self.faults = self.faults.saturating_add(1);
                Err(Failed)
            }
        }
    }

    fn put(&mut self, _node: NodeId, disk: FileDisk) {
        self.faults = self.faults.max(disk.faults());
    }
}
