// `init`: the first records of a ledger.
ghost use Rattle.std.specs.Prelude.{◌≡◌, ◌⊎◌, ℕ, IfOk, IfErr};
ghost use Rattle.command_answers.specs.Scene.{no_output, scene};
ghost use Rattle.rack_ledgers.specs.Racked.{disks_in};
ghost use Rattle.command_answers.specs.Causes.{IsReadOrNodeFault, FileRose};
ghost use Rattle.command_answers.specs.Promises.{HasKept};
ghost use Rattle.init_command.specs.Promises.{init_promise, init_needs};
ghost use Rattle.init_command.specs.Outcomes.{DidInit, WhyNoInit, InitLeaves};
ghost use Rattle.line_text.specs.Lines.{Text};
ghost use Rattle.command_answers.specs.Left.{IsBeforeDisks};
ghost use Rattle.line_text.specs.Lines.{init_text};

use cbdc_types::{Answer, Shape};
use input_files::mint_in;
use ledger_init::{Made, make_ledger};
use line_text::write_init;
use outside::{Inbox, Rack, Sink};
use requests::FileWord;
use std::alloc::Global;

// Reads the mint and makes the ledger.
fn make<I: Inbox, R: Rack>(
    alloc: Global,
    shape: &Shape,
    file: &FileWord,
    inbox: &mut I,
    rack: &mut R,
) -> Result<Made, Answer>
    requires { (n : ℕ) → R.can_take rack.old n }
    ensures made { IfOk result (λ m. DidInit R.Disk.Disk (I.file inbox.old)
        (disks_in R.Rack rack.old) (disks_in R.Rack rack.new)
        (λ text. init_text m.coins m.total m.genesis ≡ text) shape.now file.now) }
    ensures why { let before = scene I.Inbox R.Rack no_output inbox.old rack.old tt in
        let after = scene I.Inbox R.Rack no_output inbox.new rack.new tt in
        IfErr result (WhyNoInit R.Disk.Disk before after shape.now file.now) }
    ensures fault { IfErr result (IsReadOrNodeFault (λ place. place ≡ file.now.place)
        (FileRose (I.count inbox.old) (I.count inbox.new) file.now)) }
    ensures untouched { IfErr result (λ e. IsBeforeDisks e → rack.new ≡ rack.old) }
    ensures left { let before = scene I.Inbox R.Rack no_output inbox.old rack.old tt in
        let after = scene I.Inbox R.Rack no_output inbox.new rack.new tt in
        IfErr result (λ e. (rack.new ≡ rack.old) ⊎ InitLeaves R.Disk.Disk before after shape.now file.now e) }
    ensures files { (name : Text) → I.file inbox.new name ≡ I.file inbox.old name }
    ensures back { (n : ℕ) → R.can_take rack.new n }
{
    match mint_in(alloc, inbox, file) {
        Ok(mint) => make_ledger(alloc, rack, shape, mint),
        Err(fault) => Err(fault),
    }
}

/// The first records of the ledger of a shape that a mint in a file begins, and its lines.
///
/// What `process` promises where the words ask for it (`init_promise`), as `HasKept` says it. So do `run`, `recover`, `status` and `audit` of the
/// crates beside it.
///
/// Where it comes through: no node was in use and each disk had room for its first record and a closing gate. Each that told its content holds that
/// record alone, whatever a crash leaves; all other disks are as before. These journals are a kept ledger of the mint in the file. Printed: how many
/// coins it has, the sum of their values, its id (clause `did` of `process`).
pub fn init<I: Inbox, R: Rack, O: Sink>(
    alloc: Global,
    shape: &Shape,
    file: &FileWord,
    inbox: &mut I,
    rack: &mut R,
    out: &mut O,
) -> Answer
    requires { (n : ℕ) → R.can_take rack.old n }
    ensures kept { HasKept (init_needs file.now) (init_promise R.Disk.Disk shape.now file.now)
        (scene I.Inbox R.Rack O.Sink inbox.old rack.old out.old)
        (scene I.Inbox R.Rack O.Sink inbox.new rack.new out.new)
        (rack.new ≡ rack.old) (inbox.new ≡ inbox.old) result }
    ensures back { (n : ℕ) → R.can_take rack.new n }
{
    let Made {
        coins,
        total,
        genesis,
    } = match make(alloc, shape, file, inbox, rack) {
        Ok(made) => made,
        Err(fault) => return fault,
    };
    match write_init(out, coins, total, &genesis) {
        Ok(()) => Answer::Ok,
        Err(_) => Answer::WriteFault,
    }
}
