// Disks that are written alike, as one. Each call is made in three steps: at one disk, at each in turn, and at all as one.
ghost use Rattle.std.specs.Prelude.{◌≡◌, ◌+◌, ◌-◌, ◌≤◌, ℕ, List, Some, true, false, length, map, max, IsSome, slice_get, OnOk, OnErr, IfOk, min, ◌^◌};
ghost use Rattle.outside.specs.Counts.{Rose};
ghost use Rattle.outside.specs.Images.{IfTold, StaysTold, Torn, ImagesFollow, NoMore, Only, overwritten, filled};
ghost use Rattle.mirror_devices.specs.Laws.{mirror_sized, mirror_fits, mirror_reads, not_told};
ghost use Rattle.mirror_devices.specs.Mirrors.{all_told, first_told, told_of, first_of, IsImageOf, AreEven, EachBecame, has_failed, Tried, Wrote, SyncTried, Synced, Still};

use outside::{Disk, Failed};

/// Disks that hold the same, as one: a write and a sync go to each in turn, a read to the first. The first call that a disk fails ends there and fails,
/// and so does every call from then on: then they may differ by what was being written.
///
/// Keeps the trait `Disk`. What a crash may leave is what it may leave of any of its disks. The count of faults is its own: it is 0 until one of the
/// disks has failed, and rises at each call from then on.
#[derive(Drop)]
pub struct Mirror<D: Disk> {
    disks: Vec<D>,
    apart: bool,
    refused: u64,
    ghost some: { 1 ≤ length disks.items },
    ghost even: { apart ≡ false → AreEven D.size D.limit disks.items },
    ghost told: { ((d : D) → IsSome (D.content d)) → apart ≡ false
        → IsSome (all_told (map D.content disks.items)) },
    ghost whole: { apart ≡ false → refused ≡ 0 },
    ghost blamed: { apart ≡ true → has_failed (map D.count disks.items) ≡ true },
}

// Writes to one disk.
fn write_one<D: Disk>(disk: &mut D, at: u64, bytes: &[u8]) -> Result<(), Failed>
    requires place { at ≤ D.size disk.old }
    requires room { at + length bytes.now ≤ D.limit disk.old }
    ensures tried { Tried D.Disk at (length bytes.now) disk.old disk.new }
    ensures wrote { OnOk result (Wrote D.Disk at bytes.now disk.old disk.new) }
    ensures failed { OnErr result (1 ≤ D.count disk.new) }
{
    disk.write_at(at, bytes)
}

// Syncs one disk.
fn sync_one<D: Disk>(disk: &mut D) -> Result<(), Failed>
    ensures tried { SyncTried D.Disk disk.old disk.new }
    ensures synced { OnOk result (Synced D.Disk disk.old disk.new) }
    ensures failed { OnErr result (1 ≤ D.count disk.new) }
{
    disk.sync()
}

// Writes to each disk in turn, until one fails.
fn write_each<D: Disk>(disks: &mut [D], at: u64, bytes: &[u8]) -> Result<(), Failed>
    requires { (k : ℕ) (d : D) → slice_get disks.old k ≡ Some d
        → (at ≤ D.size d) × (at + length bytes.now ≤ D.limit d) }
    ensures tried { EachBecame (Tried D.Disk at (length bytes.now)) disks.old disks.new }
    ensures wrote { OnOk result (EachBecame (Wrote D.Disk at bytes.now) disks.old disks.new) }
    ensures failed { OnErr result (has_failed (map D.count disks.new) ≡ true) }
{
    'disks: for i in 0..disks.len() {
        write_one(&mut disks[i], at, bytes)?;
    }
    Ok(())
}

// Syncs each disk in turn, until one fails.
fn sync_each<D: Disk>(disks: &mut [D]) -> Result<(), Failed>
    ensures tried { EachBecame (SyncTried D.Disk) disks.old disks.new }
    ensures synced { OnOk result (EachBecame (Synced D.Disk) disks.old disks.new) }
    ensures failed { OnErr result (has_failed (map D.count disks.new) ≡ true) }
{
    'disks: for i in 0..disks.len() {
        sync_one(&mut disks[i])?;
    }
    Ok(())
}

// The same of even disks as one.
fn write_all<D: Disk>(disks: &mut [D], at: u64, bytes: &[u8]) -> Result<(), Failed>
    requires some { 1 ≤ length disks.old }
    requires even { AreEven D.size D.limit disks.old }
    requires place { at ≤ first_of (map D.size disks.old) }
    requires room { at + length bytes.now ≤ first_of (map D.limit disks.old) }
    ensures written { OnOk result (IfTold (all_told (map D.content disks.old))
        (λ c. all_told (map D.content disks.new) ≡ Some (overwritten c at bytes.now))) }
    ensures size { OnOk result (first_of (map D.size disks.new)
        ≡ max (first_of (map D.size disks.old)) (at + length bytes.now)) }
    ensures even { OnOk result (AreEven D.size D.limit disks.new) }
    ensures limit { first_of (map D.limit disks.new) ≡ first_of (map D.limit disks.old) }
    ensures told { StaysTold (all_told (map D.content disks.old)) (first_told (map D.content disks.new)) }
    ensures crash { ImagesFollow (Torn at (length bytes.now))
        (IsImageOf D.images disks.old) (IsImageOf D.images disks.new) }
    ensures failed { OnErr result (has_failed (map D.count disks.new) ≡ true) }
    ensures many { length disks.new ≡ length disks.old }
{
    write_each(disks, at, bytes)
}

fn sync_all<D: Disk>(disks: &mut [D]) -> Result<(), Failed>
    requires some { 1 ≤ length disks.old }
    requires even { AreEven D.size D.limit disks.old }
    ensures durable { OnOk result (IfTold (all_told (map D.content disks.old))
        (λ c. Only c (IsImageOf D.images disks.new))) }
    ensures same { OnOk result (map D.content disks.new ≡ map D.content disks.old) }
    ensures size { OnOk result (map D.size disks.new ≡ map D.size disks.old) }
    ensures even { OnOk result (AreEven D.size D.limit disks.new) }
    ensures limit { first_of (map D.limit disks.new) ≡ first_of (map D.limit disks.old) }
    ensures told { StaysTold (all_told (map D.content disks.old)) (first_told (map D.content disks.new)) }
    ensures crash { NoMore (IsImageOf D.images disks.old) (IsImageOf D.images disks.new) }
    ensures failed { OnErr result (has_failed (map D.count disks.new) ≡ true) }
    ensures many { length disks.new ≡ length disks.old }
{
    sync_each(disks)
}

// Reads from one disk.
fn read_one<D: Disk>(disk: &mut D, at: u64, buf: &mut [u8]) -> Result<usize, Failed>
    ensures len { IfOk result (λ n. n ≡ min (length buf.old) (D.size disk.old - at)) }
    ensures bytes { IfOk result (λ n. IfTold (D.content disk.old) (λ c. buf.new ≡ filled c at n buf.old)) }
    ensures tried { SyncTried D.Disk disk.old disk.new }
    ensures still { OnOk result (Still D.Disk disk.old disk.new) }
    ensures failed { OnErr result (1 ≤ D.count disk.new) }
{
    disk.read(at, buf)
}

// Reads from the first of even disks.
fn read_first<D: Disk>(disks: &mut [D], at: u64, buf: &mut [u8]) -> Result<usize, Failed>
    requires some { 1 ≤ length disks.old }
    requires even { AreEven D.size D.limit disks.old }
    ensures len { IfOk result (λ n. n ≡ min (length buf.old) (first_of (map D.size disks.old) - at)) }
    ensures bytes { IfOk result (λ n. IfTold (all_told (map D.content disks.old))
        (λ c. buf.new ≡ filled c at n buf.old)) }
    ensures same { OnOk result (map D.content disks.new ≡ map D.content disks.old) }
    ensures size { OnOk result (map D.size disks.new ≡ map D.size disks.old) }
    ensures even { OnOk result (AreEven D.size D.limit disks.new) }
    ensures limit { first_of (map D.limit disks.new) ≡ first_of (map D.limit disks.old) }
    ensures told { StaysTold (all_told (map D.content disks.old)) (first_told (map D.content disks.new)) }
    ensures crash { NoMore (IsImageOf D.images disks.old) (IsImageOf D.images disks.new) }
    ensures failed { OnErr result (has_failed (map D.count disks.new) ≡ true) }
    ensures many { length disks.new ≡ length disks.old }
{
    read_one(&mut disks[0], at, buf)
}

impl<D: Disk> Mirror<D> {
    /// These disks as one: at least one, each as long as the others, with as much room and the same bytes. None has failed yet, so a mirror of which one
    /// has failed is one of which it did since it was made.
    pub fn new(disks: Vec<D>) -> Mirror<D>
        requires some { 1 ≤ length disks.items }
        requires even { AreEven D.size D.limit disks.items }
        requires told { ((d : D) → IsSome (D.content d)) → IsSome (all_told (map D.content disks.items)) }
        requires fresh { has_failed (map D.count disks.items) ≡ false }
        ensures disks { result.disks.items ≡ disks.items }
        ensures whole { result.apart ≡ false }
    {
        Mirror {
            disks,
            apart: false,
            refused: 0,
        }
    }

    /// The disks.
    pub fn into_disks(self) -> Vec<D>
        ensures { result.items ≡ self.disks.items }
    {
        let Mirror {
            disks,
            apart: _,
            refused: _,
        } = self;
        disks
    }

    // A call that fails, where one of the disks has.
    fn fail(&mut self) -> Failed
        requires { has_failed (map D.count self.old.disks.items) ≡ true }
        ensures apart { self.new.apart ≡ true }
        ensures disks { self.new.disks.items ≡ self.old.disks.items }
        ensures rose { Rose self.old.refused self.new.refused }
        ensures later { self.old.refused ≤ self.new.refused }
    {
        self.apart = true;
        self.refused = self.refused.saturating_add(1);
        Failed
    }
}

impl<D: Disk> Disk for Mirror<D> {
    ghost content = { λ m. told_of m.apart (map D.content m.disks.items) };

    ghost size = { λ m. first_of (map D.size m.disks.items) };

    ghost limit = { λ m. first_of (map D.limit m.disks.items) };

    ghost count = { λ m. m.refused };

    ghost images = { λ m. IsImageOf D.images m.disks.items };

    ghost tells_past = { λ m. false };

    ghost moment = { λ m. 0 };

    ghost images_since = { λ m t c. ⊥ };

    ghost sized = { λ m c e. mirror_sized D.content D.size (λ d k is. D.sized d k is) m.apart m.disks.items c e };

    ghost fits = { λ m. mirror_fits D.size D.limit (λ d. D.fits d) m.disks.items };

    ghost reads_image = { λ m c e. mirror_reads D.content D.images (λ d k is. D.reads_image d k is) m.apart m.disks.items c e };

    ghost counts_now = { λ m t c told le image. absurd (not_told told) };

    ghost only_now = { λ m c told since. absurd (not_told told) };

    fn len(&self) -> u64 {
        self.disks[0].len()
    }

    fn capacity(&self) -> u64 {
        self.disks[0].capacity()
    }

    fn faults(&self) -> u64 {
        self.refused
    }

    fn read(&mut self, at: u64, buf: &mut [u8]) -> Result<usize, Failed> {
        if self.apart {
            return Err(self.fail());
        }
        match read_first(self.disks.as_mut_slice(), at, buf) {
            Ok(n) => Ok(n),
            Err(_) => {
                self.apart = true;
                Err(self.fail())
            }
        }
    }

    fn write_at(&mut self, at: u64, bytes: &[u8]) -> Result<(), Failed> {
        if self.apart {
            return Err(self.fail());
        }
        match write_all(self.disks.as_mut_slice(), at, bytes) {
            Ok(()) => Ok(()),
            Err(_) => {
                self.apart = true;
                Err(self.fail())
            }
        }
    }

    fn sync(&mut self) -> Result<(), Failed> {
        if self.apart {
            return Err(self.fail());
        }
        match sync_all(self.disks.as_mut_slice()) {
            Ok(()) => Ok(()),
            Err(_) => {
                self.apart = true;
                Err(self.fail())
            }
        }
    }
}
