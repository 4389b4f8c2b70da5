//! Input files, by the words that name them.
#![tactic(auto)]

mod fetched;
mod inputs;

ghost use Rattle.std.specs.Prelude.{◌≡◌, ◌-◌, ◌≤◌, length, All, IfOk, IfErr, Ok};
ghost use Rattle.outside.specs.Images.{Tells};
ghost use Rattle.clap.specs.Words.{Text};
ghost use Rattle.input_files.specs.Limits.{IsShort};
ghost use Rattle.input_files.specs.Contents.{txs_of_file, mint_of_file, IsNotRead, AreRead, FirstNotRead, IsFileFaultOf, IsStreamFaultOf, IsVerdictFaultOf, all_txs};

use crate::fetched::bytes_of;
use cbdc_types::{Answer, FullTx, InputKind, List, Mint};
use client_files::{FileFault, StreamFault, read_mint, stream_clients};
pub use fetched::Fetched;
pub use inputs::{Inputs, inputs_in};
use outside::Inbox;
use requests::FileWord;
use sentinel::{BadLine, VerdictFault};
use std::alloc::Global;

// What a fault of a file answers.
fn answer_of(file: &FileWord, fault: FileFault) -> Answer
    ensures { IsFileFaultOf file.now.place fault result }
{
    match fault {
        FileFault::Bad(bad) => Answer::BadInput {
            file: file.place,
            at: bad.at,
            kind: bad.kind,
        },
        FileFault::Memory => Answer::Memory,
    }
}

/// The mint in a file.
pub fn mint_in<I: Inbox>(alloc: Global, inbox: &mut I, file: &FileWord) -> Result<Mint, Answer>
    ensures read { IfOk result
        (λ m. Tells (I.file inbox.old file.now.name.now) (λ c. mint_of_file c ≡ Ok m)) }
    ensures few { IfOk result (λ m. length m ≤ 1000000) }
    ensures fault { IfErr result (IsNotRead file.now.place (I.file inbox.old file.now.name.now) mint_of_file
        (I.count inbox.old file.now.name.now) (I.count inbox.new file.now.name.now)) }
    ensures same { (other : Text) → I.file inbox.new other ≡ I.file inbox.old other }
    ensures later { (other : Text) → I.count inbox.old other ≤ I.count inbox.new other }
{
    match bytes_of(alloc, inbox, file) {
        Ok(Fetched { bytes, more }) => match read_mint(alloc, bytes.as_slice(), more) {
            Ok(mint) => Ok(mint),
            Err(fault) => Err(answer_of(file, fault)),
        },
        Err(fault) => Err(fault),
    }
}

// What a fault of a client file answers.
fn stream_answer(file: &FileWord, fault: StreamFault) -> Answer
    ensures { IsStreamFaultOf file.now.place fault result }
{
    match fault {
        StreamFault::Bad(bad) => Answer::BadInput {
            file: file.place,
            at: bad.at,
            kind: bad.kind,
        },
        StreamFault::ReadFault => Answer::ReadFault { file: file.place },
        StreamFault::Memory => Answer::Memory,
    }
}

/// The transactions in a client file, where the client files before it have so many.
pub fn clients_in<I: Inbox>(
    alloc: Global,
    inbox: &mut I,
    file: &FileWord,
    before: u64,
) -> Result<List<FullTx>, Answer>
    ensures read { IfOk result
        (λ txs. Tells (I.file inbox.old file.now.name.now) (λ c. txs_of_file before c ≡ Ok txs)) }
    ensures few { IfOk result (λ txs. length txs ≤ 1000000 - before) }
    ensures short { IfOk result (λ txs. All IsShort txs) }
    ensures fault { IfErr result (IsNotRead file.now.place (I.file inbox.old file.now.name.now)
        (txs_of_file before) (I.count inbox.old file.now.name.now) (I.count inbox.new file.now.name.now)) }
    ensures same { (other : Text) → I.file inbox.new other ≡ I.file inbox.old other }
    ensures later { (other : Text) → I.count inbox.old other ≤ I.count inbox.new other }
{
    match stream_clients(alloc, inbox, file.name, before) {
        Ok(txs) => Ok(txs),
        Err(fault) => Err(stream_answer(file, fault)),
    }
}

// What a fault of a verdict file answers.
fn verdict_answer(file: &FileWord, fault: VerdictFault) -> Answer
    ensures { IsVerdictFaultOf file.now.place fault result }
{
    match fault {
        VerdictFault::Bad(BadLine { line, kind }) => Answer::BadInput {
            file: file.place,
            at: line,
            kind,
        },
        VerdictFault::Large => Answer::BadInput {
            file: file.place,
            at: 1 << 30,
            kind: InputKind::Large,
        },
        VerdictFault::Memory => Answer::Memory,
    }
}

/// The transactions in client files, in their order.
pub fn all_clients_in<I: Inbox>(
    alloc: Global,
    inbox: &mut I,
    files: &[FileWord],
) -> Result<Vec<List<FullTx>>, Answer>
    ensures read { IfOk result (λ v. AreRead (I.file inbox.old) 0 files.now v.items) }
    ensures few { IfOk result (λ v. all_txs v.items ≤ 1000000) }
    ensures short { IfOk result (λ v. All (λ txs. All IsShort txs) v.items) }
    ensures fault { IfErr result
        (FirstNotRead (I.file inbox.old) (I.count inbox.old) (I.count inbox.new) files.now) }
    ensures same { (other : Text) → I.file inbox.new other ≡ I.file inbox.old other }
    ensures later { (other : Text) → I.count inbox.old other ≤ I.count inbox.new other }
{
    let mut all = Vec::new(alloc);
    let mut before = 0u64;
    'files: for file in files {
        let txs = match clients_in(alloc, inbox, file, before) {
            Ok(txs) => txs,
            Err(fault) => return Err(fault),
        };
        before = before.saturating_add(txs.len() as u64);
        match all.push(txs) {
            Ok(()) => {}
            Err(_) => return Err(Answer::Memory),
        }
    }
    Ok(all)
}
