// The top call.
ghost use Rattle.std.specs.Prelude.{◌≡◌, ◌≤◌, ◌⊎◌, ℕ, List, Some, MatchOption};
ghost use Rattle.commands.specs.Texts.{IsFaultPrinted};
ghost use Rattle.command_answers.specs.Texts.{IsPrinted, IsSilent};
ghost use Rattle.command_line.specs.Asked.{AreWordsRefused, WordsAskFor};
ghost use Rattle.command_line.specs.Words.{texts};
ghost use Rattle.requests.specs.declared.Request.{Request as Asked};
ghost use Rattle.commands.specs.Causes.{IsAnswerToWords, NamedRose, RequestPlace, AskedName, OneNamed, RequestNames};
ghost use Rattle.commands.specs.Promises.{promise_of, needs_of};
ghost use Rattle.command_answers.specs.Promises.{HasKept};
ghost use Rattle.command_answers.specs.Causes.{IsAnswerToRequest, HasToldCause, IsWell, OnePlace};
ghost use Rattle.commands.specs.Complete.{IsUnhindered};
ghost use Rattle.commands.specs.Exact.{IsEndedLater, IsExact};
ghost use Rattle.commands.specs.Sizes.{IsSized};
ghost use Rattle.commands.specs.Outcomes.{AskedDid, AskedWhy};
ghost use Rattle.command_answers.specs.Scene.{scene};
ghost use Rattle.command_answers.specs.Left.{IsBeforeDisks};
ghost use Rattle.commands.specs.Left.{AskedLeaves, IsOfNoFile, IsOfNoRack};
ghost use Rattle.commands.specs.Spared.{AreBadOr};
ghost use Rattle.commands.specs.Survival.{StaysKeptWhatever};
ghost use Rattle.line_text.specs.Lines.{Text};
ghost use Rattle.outside.specs.Counts.{Rose};
ghost use Rattle.printed_lines.specs.Reports.{Names};

use audit_command::audit;
use cbdc_types::Answer;
use command_line::{parse, see_request};
use gen_command::generated;
use init_command::init;
use line_text::{write_all, write_fault};
use outside::{Disk, Gate, Inbox, Rack, Sink};
use requests::{FileWord, Request, WordsFault};
use run_command::{recover, run};
use status_command::status;
use std::alloc::Global;
use std::sync::Wait;
use std::thread::Threads;

/// The status, and the rack, all of whose disks may be taken again.
pub struct Done<R> {
    pub status: Answer,
    pub rack: R,
}

// The status, and the name of the file that the answer speaks of.
struct Answered<'a> {
    status: Answer,
    name: &'a str,
}

// What a disk tells is what a crash may leave of it, if nothing else is.
fn see_images<D: Disk>()
    ensures { (d : D) (c : List ℕ) → D.content d ≡ Some c → D.images d c }
{}

// Prints a text that the words ask for.
fn show<O: Sink>(out: &mut O, text: &str) -> Answer
    ensures cause { IsAnswerToRequest (λ file. ⊥) (λ file. ⊥)
        (Rose (O.count out.old) (O.count out.new)) result }
    ensures shown { IsWell result }
    ensures prints { IsPrinted (O.taken out.old) (O.taken out.new) result text.now }
    ensures silent { IsSilent (O.taken out.old) (O.taken out.new) result }
    ensures written_later { O.count out.old ≤ O.count out.new }
{
    match write_all(out, text.as_bytes()) {
        Ok(()) => Answer::Ok,
        Err(_) => Answer::WriteFault,
    }
}

// The name of a client file that has a place.
fn client_at<'a>(clients: &[FileWord<'a>], place: u64) -> Option<&'a str>
    ensures { MatchOption result (OnePlace clients.now place → ⊥)
        (λ name. OneNamed clients.now place name.now) }
{
    'clients: for client in clients {
        if client.place == place {
            return Some(client.name);
        }
    }
    None
}

// The name of a file that is asked for and has a place.
fn name_at<'a>(request: &Request<'a>, place: u64) -> &'a str
    ensures { RequestPlace request.now place → RequestNames request.now place result.now }
{
    match request {
        Request::Init { mint, .. } => mint.name,
        Request::Run {
            verdicts,
            clients,
            ..
        } => match client_at(clients, place) {
            Some(name) => name,
            None => verdicts.name,
        },
        Request::Audit { mint, clients } => match client_at(clients, place) {
            Some(name) => name,
            None => mint.name,
        },
        _ => "",
    }
}

// The name of the file that an answer speaks of.
fn name_of<'a>(request: &Request<'a>, answer: &Answer) -> &'a str
    ensures { Names (λ file name. RequestPlace request.now file → RequestNames request.now file name)
        answer.now result.now }
{
    match answer {
        Answer::BadInput { file, .. } => name_at(request, *file),
        Answer::ReadFault { file } => name_at(request, *file),
        _ => "",
    }
}

// Does what is asked.
fn answer_to<W: Wait + Threads + Sync, I: Inbox, R: Rack, O: Sink, G: Gate + Sync>(
    rt: &W,
    alloc: Global,
    request: &Request,
    inbox: &mut I,
    rack: &mut R,
    out: &mut O,
    gate: &G,
) -> Answer
where
    R::Disk: Send,
    requires all { (n : ℕ) → R.can_take rack.old n }
    requires sized { IsSized request.now }
    ensures back { (n : ℕ) → R.can_take rack.new n }
    ensures kept { HasKept (needs_of request.now) (promise_of R.Disk.Disk request.now)
        (scene I.Inbox R.Rack O.Sink inbox.old rack.old out.old)
        (scene I.Inbox R.Rack O.Sink inbox.new rack.new out.new)
        (rack.new ≡ rack.old) (inbox.new ≡ inbox.old) result }
{
    match request {
        Request::Init { shape, mint } => init(alloc, shape, mint, inbox, rack, out),
        Request::Run {
            verdicts,
            clients,
            options,
        } => run(
            rt, alloc, clients, verdicts, *options, inbox, rack, out, gate,
        ),
        Request::Recover => recover(rt, alloc, rack, out, gate),
        Request::Status { hashes } => status(rt, alloc, hashes, rack, out),
        Request::Audit { mint, clients } => audit(rt, alloc, mint, clients, inbox, rack, out),
        Request::Gen {
            shape,
            seed,
            count,
            options,
        } => generated(rt, alloc, shape, *seed, *count, *options, out, gate),
        Request::Show(text) => show(out, text.as_str()),
    }
}

// Does what the words ask for.
fn answer_words<'a, W: Wait + Threads + Sync, I: Inbox, R: Rack, O: Sink, G: Gate + Sync>(
    rt: &W,
    alloc: Global,
    words: &'a [String],
    inbox: &mut I,
    rack: &mut R,
    out: &mut O,
    gate: &G,
) -> Answered<'a>
where
    R::Disk: Send,
    requires { (n : ℕ) → R.can_take rack.old n }
    ensures back { (n : ℕ) → R.can_take rack.new n }
    ensures cause { IsAnswerToWords (texts words.entry.now) (I.count inbox.old) (I.count inbox.new)
        (Rose (O.count out.old) (O.count out.new)) result.status }
    ensures refused_words { AreWordsRefused (texts words.entry.now) WordsFault.Bad
        → (result.status ≡ Answer.BadWords) ⊎ (result.status ≡ Answer.Memory) }
    ensures did { let before = scene I.Inbox R.Rack O.Sink inbox.old rack.old out.old in
        let after = scene I.Inbox R.Rack O.Sink inbox.new rack.new out.new in
        IsWell result.status → AskedDid R.Disk.Disk before after (texts words.entry.now) result.status }
    ensures why { let before = scene I.Inbox R.Rack O.Sink inbox.old rack.old out.old in
        let after = scene I.Inbox R.Rack O.Sink inbox.new rack.new out.new in
        HasToldCause (AskedWhy R.Disk.Disk before after (texts words.entry.now)) result.status }
    ensures untouched { IsBeforeDisks result.status → rack.new ≡ rack.old }
    ensures spared { AreBadOr IsOfNoRack (texts words.entry.now) → rack.new ≡ rack.old }
    ensures unread { AreBadOr IsOfNoFile (texts words.entry.now) → inbox.new ≡ inbox.old }
    ensures inbox { (name : Text) → I.file inbox.new name ≡ I.file inbox.old name }
    ensures left { let before = scene I.Inbox R.Rack O.Sink inbox.old rack.old out.old in
        let after = scene I.Inbox R.Rack O.Sink inbox.new rack.new out.new in
        (IsWell result.status → ⊥)
        → (rack.new ≡ rack.old) ⊎ AskedLeaves R.Disk.Disk before after (texts words.entry.now) result.status }
    ensures named { Names (AskedName (texts words.entry.now)) result.status result.name.now }
    ensures silent { IsSilent (O.taken out.old) (O.taken out.new) result.status }
    ensures written_later { O.count out.old ≤ O.count out.new }
{
    match parse(alloc, words) {
        Ok(request) => {
            see_request(&request);
            let status = answer_to(rt, alloc, &request, inbox, rack, out, gate);
            let name = name_of(&request, &status);
            Answered { status, name }
        }
        Err(WordsFault::Bad) => Answered {
            status: Answer::BadWords,
            name: "",
        },
        Err(WordsFault::Memory) => Answered {
            status: Answer::Memory,
            name: "",
        },
    }
}

/// Does what the words ask for, and prints the line of a fault. All disks may be taken again when it ends.
///
/// What `did` comes to stands at the function of each command: `init`, `run`, `recover`, `status`, `audit`, `generated`. The text of a command is
/// the whole of what the sink took at Ok, and a front of it at WriteFault, where all was done and a line could not be printed.
///
/// Out of memory: at any moment; `left` holds then, and of a run or a recovery all that a lane's fault leaves, or the disks are as they were read.
///
/// - Of `gen`: whatever it answers, the rack is as it was (`spared`). Where no hashes of its workload clash it is proved that the same words give
///   the same text; that they don't is a hypothesis. Tested in `ledger_rows` (`gen.rows`: one transaction, a thousand twice, one lane) and on the
///   README's block.
/// - Of `init`, `run`, `status`, `recover`, `audit`: The printed text (which is proved too), the status, and what is then on the disks are tested by
///   rows of `ledger_rows`, as the next items say.
/// - In `bytes.rows`: The places of all records of one transaction on both disks.
/// - In `run.rows`: One coin to two, the same twice, two spenders in one file and in two, an output spent in its own batch and later, three files in
///   one run, wrong claims, a full disk, what is known of hashes.
/// - In `init.rows`: Mints, a disk without room, a second `init`, words, a run over empty disks.
/// - In `refusal.rows`: Each reason to refuse a submission, files outside their grammar, verdict files, a damaged shard.
/// - In `audit.rows` and `several.rows`: Audits, journals that do not fit together.
/// - In `left.rows`: What refusals leave of the disks, byte by byte.
/// - In `bad_words.rows`: Words that ask for nothing; which files are read and which disks taken.
/// - In `points.rows`: What is asked of nodes, in order.
/// - In `stop.rows` (two shards): A run stopped behind each record and recovered, what `status` prints of one, a torn gate, `run` that resumes first,
///   two files stopped anywhere and brought to their end, a disk that fails at each of its first calls, disks of another mint and of the other kind,
///   an output that takes a part, help.
/// - In `stops.rows`: Two runs of two files, recoveries in each phase and an `init`. Each disk is stopped at each of its calls, or fails at that one
///   alone, is crashed in four ways (nothing that was not synced, all, torn bytes of two kinds), recovered and audited, with what is committed then.
///   Also a rack that lacks a disk, and an output that takes less than the text, by each number of bytes.
/// - In `bad_bytes.rows`: Files and disks with bad bytes behind a run of one transaction.
/// - In `repeats.rows` (with repeats): The calls that are made, the same text and bytes, resumed batches without.
/// - In `lanes.rows`: Two lanes.
/// - In `threads.rows`: Three lanes, each in its shard's lock, or its coordinator's, until another has done its batch; a lane behind a shard's lock
///   until another has done its batch there.
/// - In `many_lanes.rows`: Sixteen lanes, all on the way at one time.
pub fn process<W: Wait + Threads + Sync, I: Inbox, R: Rack, O: Sink, G: Gate + Sync>(
    rt: &W,
    alloc: Global,
    words: &[String],
    inbox: &mut I,
    rack: R,
    out: &mut O,
    gate: &G,
) -> Done<R>
where
    R::Disk: Send,
    requires { (n : ℕ) → R.can_take rack n }

    // All disks of the rack may be taken again when it ends.
    ensures back { (n : ℕ) → R.can_take result.rack n }
    // What the words ask for was done, and its lines were printed, all of them at Ok and a front at WriteFault. It is one of these: a ledger was made
    // (`DidInit`), files were run over one (`DidRun`), its open batches were brought to their end (`DidRecover`), hashes were looked up
    // (`DidStatus`), its journals were audited and are sound (`DidAudit`), or a workload was run in memory (`PrintsWorkload`). What was run over or
    // brought to an end was a ledger that the disks told, in which each record was caused (`TookLedger` says what is left of it). Where it was kept
    // all that `IsPrintedRun` and `IsPrintedRecovery` say holds: above all, where no hashes clash (`Clean`), the headline, of the journals at exit. A
    // look and an audit leave the disks as they were. Help and the version are printed, and nothing else is done.
    ensures did { let before = scene I.Inbox R.Rack O.Sink inbox.old rack out.old in
        let after = scene I.Inbox R.Rack O.Sink inbox.new result.rack out.new in
        IsWell result.status → AskedDid R.Disk.Disk before after (texts words.now) result.status }

    // At every status but Ok and WriteFault the sink took the line of the fault and nothing else, or, where its count rose, a front of it. At BadInput
    // and ReadFault the file has a place among the words, and the name in the line is the one that stands there (verdicts may stand behind their
    // option).
    ensures fault_line { let before = scene I.Inbox R.Rack O.Sink inbox.old rack out.old in
        let after = scene I.Inbox R.Rack O.Sink inbox.new result.rack out.new in
        IsFaultPrinted before after (texts words.now) result.status }

    // Each answer but Ok, WriteFault, BadWords and Memory has its cause (`Why`), which is one of four. A file is the first not read, and its place is
    // given. A ledger can't be made (`IsUnmade`) or opened (`IsUnopened`), by the first reason, or a record of it is the first not caused
    // (`IsUnresumed`), and the disks are back as they were read. A lane met a fault (`IsLaneFault`), which has its own cause and leaves what is said
    // there. Or an audit found something wrong (`WasAudited`). `gen` ends so only where its audit is Unsound, and then hashes of its workload clash
    // (`WhyNoWorkload`).
    ensures why { let before = scene I.Inbox R.Rack O.Sink inbox.old rack out.old in
        let after = scene I.Inbox R.Rack O.Sink inbox.new result.rack out.new in
        HasToldCause (AskedWhy R.Disk.Disk before after (texts words.now)) result.status }

    // At BadWords, BadInput, ReadFault and TooMuch the rack is as it was: no disk was taken. Tested in `ledger_rows` (`left.rows`,
    // `bad_words.rows`).
    ensures untouched { IsBeforeDisks result.status → result.rack ≡ rack }

    // Of words that are refused, of `gen`, `--help` and `--version`: whatever is answered, also where memory ran out, the rack is as it was.
    ensures spared { AreBadOr IsOfNoRack (texts words.now) → result.rack ≡ rack }

    // Of words that are refused, of `recover`, `status`, `gen`, `--help` and `--version`: no file is read, whatever is answered.
    ensures unread { AreBadOr IsOfNoFile (texts words.now) → inbox.new ≡ inbox.old }

    // The inbox tells of each file what it told before.
    ensures inbox { (name : Text) → I.file inbox.new name ≡ I.file inbox.old name }

    // Where it was not done the rack is as it was, or one of these holds. Behind `status` and `audit` all disks are as they were read
    // (`AreDisksBack`). Where a run or a recovery was not done, also where memory ran out, they are as they were read, or all is as a lane's fault
    // leaves it (`TurnsLeave`). Where a ledger was not made (any status of `init` but 0 and 11), they are as they were read, or the writing of first
    // records stopped at a node (`InitStoppedAt`). Tested in `left.rows`.
    ensures left { let before = scene I.Inbox R.Rack O.Sink inbox.old rack out.old in
        let after = scene I.Inbox R.Rack O.Sink inbox.new result.rack out.new in
        (IsWell result.status → ⊥)
        → (result.rack ≡ rack) ⊎ AskedLeaves R.Disk.Disk before after (texts words.now) result.status }

    // Whatever was answered: of a kept ledger that the disks showed, and that was kept whatever a crash before the call left of them, whatever a
    // crash behind it leaves opens to kept journals, with the transactions of the files that were to be run besides or without. Each of these has
    // grown at its end from a journal that a crash before might have left of its disk: where nothing was unsynced there, from the one that it told.
    ensures survives { let before = scene I.Inbox R.Rack O.Sink inbox.old rack out.old in
        let after = scene I.Inbox R.Rack O.Sink inbox.new result.rack out.new in
        StaysKeptWhatever R.Disk.Disk before after (texts words.now) }

    // Of `run`, `recover`, `status`, `audit`: where it comes through (Ok or WriteFault), where a lane's fault ends a run or a recovery, and where an
    // audit finds something wrong (`IsEndedLater`), nothing that the disks held at entry was to be refused (`HasNoCause`). That is: if each of the
    // ledger's disks tells its content, no node has a cause to be refused as NotReady, Damaged, Foreign or Full, whatever the counts of faults, nor
    // at `run` and `recover` any record to be the first that is not caused. So, but for a disk's fault and running out of memory, a ledger is refused
    // only where its disks give such a cause (`why`), and nothing is done over one whose disks give it.
    ensures exact { let before = scene I.Inbox R.Rack O.Sink inbox.old rack out.old in
        let after = scene I.Inbox R.Rack O.Sink inbox.new result.rack out.new in
        (r : Asked) → WordsAskFor (texts words.now) r
        → IsWell result.status ⊎ IsEndedLater R.Disk.Disk before after r result.status
        → IsExact R.Disk.Disk before r }

    // Where nothing hinders what is asked (`IsUnhindered`) it ends with Ok or Memory, or with WriteFault, where the sink's count rose
    // (`write_fault`). Nothing does where all that it is about is told, no count of it rises, and it is as `CanInit`, `CanRun` and `CanAudit` say,
    // or, of `recover` and `status`, `AreReadyFor`. Of these two and of `run` that is with room for every record that is still to be written
    // (`Ample`); of `status` each hash has its 32 bytes besides. Nothing hinders `gen` where no hashes of its workload clash, and help never is
    // hindered.
    ensures complete { let before = scene I.Inbox R.Rack O.Sink inbox.old rack out.old in
        let after = scene I.Inbox R.Rack O.Sink inbox.new result.rack out.new in
        (r : Asked) → WordsAskFor (texts words.now) r → IsUnhindered R.Disk.Disk before after r
        → IsWell result.status ⊎ (result.status ≡ Answer.Memory) }

    // BadWords only where the words have a mistake, or a value is out of form (as `parse` refuses them).
    ensures bad_words { result.status ≡ Answer.BadWords → AreWordsRefused (texts words.now) WordsFault.Bad }

    // Words that have a mistake, or a value out of form, end as BadWords, or as Memory where memory ran out.
    ensures refused_words { AreWordsRefused (texts words.now) WordsFault.Bad
        → (result.status ≡ Answer.BadWords) ⊎ (result.status ≡ Answer.Memory) }

    // ReadFault only where the words ask for a file with that place, and the inbox's count of its name rose.
    ensures read_fault { (file : ℕ) → result.status ≡ Answer.ReadFault file
        → NamedRose (texts words.now) (I.count inbox.old) (I.count inbox.new) file }

    // WriteFault only where the sink's count rose.
    ensures write_fault { result.status ≡ Answer.WriteFault → Rose (O.count out.old) (O.count out.new) }
{
    see_images::<R::Disk>();
    let mut rack = rack;
    let Answered { status, name } = answer_words(rt, alloc, words, inbox, &mut rack, out, gate);
    let _ = write_fault(out, &status, name);
    Done { status, rack }
}
