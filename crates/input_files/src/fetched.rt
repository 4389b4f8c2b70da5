// The bytes of a file.
ghost use Rattle.std.specs.Prelude.{◌≡◌, ◌≤◌, IfOk, IfErr};
ghost use Rattle.outside.specs.Images.{Tells};
ghost use Rattle.clap.specs.Words.{Text};
ghost use Rattle.input_files.specs.Contents.{front, goes_on, IsUnfetched};

use cbdc_types::{Answer, List};
use client_files::{FetchFault, fetch};
use outside::Inbox;
use requests::FileWord;
use std::alloc::Global;

/// The first bytes of a file, and whether it goes on.
#[derive(Drop)]
pub struct Fetched {
    pub bytes: List<u8>,
    pub more: bool,
}

/// The first bytes of a file.
pub(crate) fn bytes_of<I: Inbox>(
    alloc: Global,
    inbox: &mut I,
    file: &FileWord,
) -> Result<Fetched, Answer>
    ensures bytes { IfOk result
        (λ r. Tells (I.file inbox.old file.now.name.now) (λ c. (r.bytes ≡ front c) × (r.more ≡ goes_on c))) }
    ensures same { (other : Text) → I.file inbox.new other ≡ I.file inbox.old other }
    ensures fault { IfErr result (IsUnfetched file.now.place
        (I.count inbox.old file.now.name.now) (I.count inbox.new file.now.name.now)) }
    ensures later { (other : Text) → I.count inbox.old other ≤ I.count inbox.new other }
{
    match fetch(alloc, inbox, file.name) {
        Ok((bytes, more)) => Ok(Fetched { bytes, more }),
        Err(FetchFault::ReadFault) => Err(Answer::ReadFault { file: file.place }),
        Err(FetchFault::Memory) => Err(Answer::Memory),
    }
}
