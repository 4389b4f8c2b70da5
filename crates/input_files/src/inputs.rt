// What a run reads: client files, and the verdicts behind them.
ghost use Rattle.std.specs.Prelude.{◌≡◌, ◌≤◌, All, IfOk, IfErr};
ghost use Rattle.clap.specs.Words.{Text};
ghost use Rattle.input_files.specs.Inputs.{AreHadVerdicts, AreNoHadVerdicts, AreNoInputs};
ghost use Rattle.input_files.specs.Contents.{AreRead, AreVerdicts, all_txs};
ghost use Rattle.input_files.specs.Limits.{IsShort};

use crate::fetched::{Fetched, bytes_of};
use crate::{all_clients_in, verdict_answer};
use cbdc_types::{Answer, FullTx, List};
use outside::Inbox;
use requests::FileWord;
use sentinel::VerdictFile;
use std::alloc::Global;

/// The transactions of client files, in their order, and the verdicts on their witnesses.
#[derive(Drop)]
pub struct Inputs {
    pub files: Vec<List<FullTx>>,
    pub verdicts: VerdictFile,
}

// The verdicts in what was had of a file.
fn verdicts_of(
    alloc: Global,
    file: &FileWord,
    had: &Result<Fetched, Answer>,
) -> Result<VerdictFile, Answer>
    ensures read { IfOk result (AreHadVerdicts had.now) }
    ensures fault { IfErr result (AreNoHadVerdicts file.now.place had.now) }
{
    let had = match had {
        Ok(had) => had,
        Err(fault) => return Err(*fault),
    };
    match VerdictFile::read(alloc, had.bytes.as_slice(), had.more) {
        Ok(verdicts) => Ok(verdicts),
        Err(fault) => Err(verdict_answer(file, fault)),
    }
}

/// Reads client files, and the verdict file behind them.
pub fn inputs_in<I: Inbox>(
    alloc: Global,
    inbox: &mut I,
    clients: &[FileWord],
    verdicts: &FileWord,
) -> Result<Inputs, Answer>
    ensures read { IfOk result (λ r. AreRead (I.file inbox.old) 0 clients.now r.files.items) }
    ensures few { IfOk result (λ r. all_txs r.files.items ≤ 1000000) }
    ensures short { IfOk result (λ r. All (λ txs. All IsShort txs) r.files.items) }
    ensures verdicts { IfOk result (λ r. AreVerdicts (I.file inbox.old verdicts.now.name.now) r.verdicts) }
    ensures fault { IfErr result
        (AreNoInputs (I.file inbox.old) (I.count inbox.old) (I.count inbox.new) clients.now verdicts.now) }
    ensures same { (other : Text) → I.file inbox.new other ≡ I.file inbox.old other }
    ensures later { (other : Text) → I.count inbox.old other ≤ I.count inbox.new other }
{
    let files = match all_clients_in(alloc, inbox, clients) {
        Ok(files) => files,
        Err(fault) => return Err(fault),
    };
    let had = bytes_of(alloc, inbox, verdicts);
    match verdicts_of(alloc, verdicts, &had) {
        Ok(verdicts) => Ok(Inputs { files, verdicts }),
        Err(fault) => Err(fault),
    }
}
