// `audit`: the journals against a mint and the transactions that were handed in.
ghost use Rattle.std.specs.Prelude.{◌≡◌, ◌≤◌, ℕ, IfOk, IfErr};
ghost use Rattle.outside.specs.Counts.{Rose};
ghost use Rattle.command_answers.specs.Scene.{no_output, scene};
ghost use Rattle.rack_ledgers.specs.Racked.{AreDisksBack, disks_in};
ghost use Rattle.file_runs.specs.Runs.{joined as all_joined};
ghost use Rattle.line_text.specs.Reports.{audit_text};
ghost use Rattle.command_answers.specs.Causes.{IsReadOrNodeFault, IsAnswerToRequest, IsWell};
ghost use Rattle.audit_command.specs.Audits.{AuditPlace, AuditRose, WasAudited, WhyUnaudited};
ghost use Rattle.audit_command.specs.Promises.{audit_promise, audit_needs};
ghost use Rattle.command_answers.specs.Promises.{HasKept};
ghost use Rattle.command_answers.specs.Texts.{IsPrinted, IsSilent};
ghost use Rattle.line_text.specs.Lines.{Text};
ghost use Rattle.command_answers.specs.Left.{IsBeforeDisks};

use audit::Verdict;
use cbdc_types::{Answer, FullTx, List, Totals};
use input_files::{all_clients_in, mint_in};
use line_text::write_audit;
use outside::{Inbox, Rack, Sink};
use rack_ledgers::audit_on;
use requests::FileWord;
use std::alloc::{AllocError, Global};
use std::thread::Threads;

// The transactions of files in one list.
pub fn joined(alloc: Global, files: Vec<List<FullTx>>) -> Result<Vec<FullTx>, AllocError>
    ensures { IfOk result (λ v. v.items ≡ all_joined files.items) }
{
    let mut all = Vec::new(alloc);
    'files: for file in files {
        let mut txs = file.into_vec();
        all.append(&mut txs)?;
    }
    Ok(all)
}

// Reads all files, and audits the ledger on the rack. All files are read before the rack is taken.
fn audit_all<W: Threads + Sync, I: Inbox, R: Rack>(
    rt: &W,
    alloc: Global,
    mint: &FileWord,
    clients: &[FileWord],
    inbox: &mut I,
    rack: &mut R,
) -> Result<Verdict, Answer>
where
    R::Disk: Send,
    requires { (n : ℕ) → R.can_take rack.old n }
    ensures did { IfOk result (WasAudited R.Disk.Disk (I.file inbox.old)
        (disks_in R.Rack rack.old) (disks_in R.Rack rack.new) mint.now clients.now) }
    ensures why { let before = scene I.Inbox R.Rack no_output inbox.old rack.old tt in
        let after = scene I.Inbox R.Rack no_output inbox.new rack.new tt in
        IfErr result (WhyUnaudited R.Disk.Disk before after mint.now clients.now) }
    ensures held { AreDisksBack R.Disk.Disk (disks_in R.Rack rack.old) (disks_in R.Rack rack.new) }
    ensures fault { IfErr result (IsReadOrNodeFault (AuditPlace mint.now clients.now)
        (AuditRose (I.count inbox.old) (I.count inbox.new) mint.now clients.now)) }
    ensures untouched { IfErr result (λ e. IsBeforeDisks e → rack.new ≡ rack.old) }
    ensures files { (name : Text) → I.file inbox.new name ≡ I.file inbox.old name }
    ensures back { (n : ℕ) → R.can_take rack.new n }
{
    let mint = match mint_in(alloc, inbox, mint) {
        Ok(mint) => mint,
        Err(fault) => return Err(fault),
    };
    let files = match all_clients_in(alloc, inbox, clients) {
        Ok(files) => files,
        Err(fault) => return Err(fault),
    };
    let Ok(handed) = joined(alloc, files) else {
        return Err(Answer::Memory);
    };
    audit_on(rt, alloc, rack, mint.as_slice(), &handed)
}

// Prints what a sound ledger comes to.
fn print<O: Sink>(out: &mut O, totals: &Totals) -> Answer
    ensures cause { IsAnswerToRequest (λ file. ⊥) (λ file. ⊥)
        (Rose (O.count out.old) (O.count out.new)) result }
    ensures shown { IsWell result }
    ensures prints { IsPrinted (O.taken out.old) (O.taken out.new) result (audit_text totals.now) }
    ensures silent { IsSilent (O.taken out.old) (O.taken out.new) result }
    ensures behind { IsBeforeDisks result → ⊥ }
    ensures later { O.count out.old ≤ O.count out.new }
{
    match write_audit(out, totals) {
        Ok(()) => Answer::Ok,
        Err(_) => Answer::WriteFault,
    }
}

/// Checks the journals against a mint and the transactions that were handed in. No journal changes.
///
/// Where it comes through: the one verdict of the journals by the mint and what was handed in is Sound. So the sentence about the money holds of the
/// ledger that the disks tell, if its first records are the mint's, no hashes clash and each committed transaction has an input. The value is then
/// the value minted, where each of these makes as much as it takes; and money is what was minted plus issued less redeemed, where each keeps the
/// money. The disks are as behind `status` (clause `did` of `process`).
pub fn audit<W: Threads + Sync, I: Inbox, R: Rack, O: Sink>(
    rt: &W,
    alloc: Global,
    mint: &FileWord,
    clients: &[FileWord],
    inbox: &mut I,
    rack: &mut R,
    out: &mut O,
) -> Answer
where
    R::Disk: Send,
    requires { (n : ℕ) → R.can_take rack.old n }
    ensures kept { HasKept (audit_needs mint.now clients.now)
        (audit_promise R.Disk.Disk mint.now clients.now)
        (scene I.Inbox R.Rack O.Sink inbox.old rack.old out.old)
        (scene I.Inbox R.Rack O.Sink inbox.new rack.new out.new)
        (rack.new ≡ rack.old) (inbox.new ≡ inbox.old) result }
    ensures back { (n : ℕ) → R.can_take rack.new n }
{
    match audit_all(rt, alloc, mint, clients, inbox, rack) {
        Ok(Verdict::Sound(totals)) => print(out, &totals),
        Ok(Verdict::Unsound { place, kind }) => Answer::Unsound { place, kind },
        Err(fault) => fault,
    }
}
