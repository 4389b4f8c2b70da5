// Lines as they are printed.
use crate::answers::{answer_of, totals, verdict_of};
use crate::page::Page;
use crate::reader::Reader;
use audit::Verdict;
use cbdc_types::{Answer, Header, Phase, Status};
use line_text::{
    Summary, status_code, write_audit, write_confirmed, write_fault, write_init, write_recovery,
    write_refused, write_rejected, write_resumed, write_status, write_summary,
};
use plain_check::{fault_line, verdict_text};
use row_records::{Block, Told, rest};

// `FILE PLACE ID LANE NUMBER`
fn confirmed(page: &mut Page, words: &mut Reader) -> bool {
    let (file, place) = (words.number(), words.number());
    let id = words.hash();
    let batch = words.batch();
    write_confirmed(page, file, place, &id, batch).is_ok()
}

// `FILE PLACE ID OUTCOME LANE NUMBER`
fn rejected(page: &mut Page, words: &mut Reader) -> bool {
    let (file, place) = (words.number(), words.number());
    let id = words.hash();
    let why = words.outcome();
    let batch = words.batch();
    write_rejected(page, file, place, &id, &why, batch).is_ok()
}

// `FILE PLACE ID REFUSAL`
fn refused(page: &mut Page, words: &mut Reader) -> bool {
    let (file, place) = (words.number(), words.number());
    let id = words.hash();
    let why = words.refusal();
    write_refused(page, file, place, &id, &why).is_ok()
}

// `RESUMED BATCHES CONFIRMED REJECTED REFUSED UNSPENT`
fn summary(page: &mut Page, words: &mut Reader) -> bool {
    let (resumed, batches) = (words.number(), words.number());
    let (confirmed, rejected) = (words.number(), words.number());
    let (refused, unspent) = (words.number(), words.number());
    let summary = Summary {
        resumed,
        batches,
        confirmed,
        rejected,
        refused,
        unspent,
    };
    write_summary(page, &summary).is_ok()
}

// `COINS MINTED GENESIS`
fn init(page: &mut Page, words: &mut Reader) -> bool {
    let (coins, minted) = (words.number(), words.number());
    let genesis = words.hash();
    write_init(page, coins, minted, &genesis).is_ok()
}

// `HASH unspent`, `HASH absent`, `HASH locked LANE NUMBER`
fn status(page: &mut Page, words: &mut Reader) -> bool {
    let x = words.hash();
    let own = match words.word() {
        "unspent" => Status::Unspent,
        "absent" => Status::Absent,
        _ => Status::Locked(words.batch()),
    };
    write_status(page, &x, &own).is_ok()
}

fn phase(words: &mut Reader) -> Phase {
    match words.word() {
        "prepared" => Phase::Prepared,
        "committed" => Phase::Committed,
        "discarded" => Phase::Discarded,
        _ => {
            words.refuse();
            Phase::Prepared
        }
    }
}

// `LANE NUMBER PHASE CONFIRMED REJECTED`
fn resumed(page: &mut Page, words: &mut Reader) -> bool {
    let batch = words.batch();
    let phase = phase(words);
    let (confirmed, rejected) = (words.number(), words.number());
    write_resumed(page, batch, phase, confirmed, rejected).is_ok()
}

// `RESUMED UNSPENT`
fn recovery(page: &mut Page, words: &mut Reader) -> bool {
    let (resumed, unspent) = (words.number(), words.number());
    write_recovery(page, resumed, unspent).is_ok()
}

// `COINS VALUE MINTED COMMITTED MONEY ISSUED REDEEMED`
fn audit(page: &mut Page, words: &mut Reader) -> bool {
    write_audit(page, &totals(words)).is_ok()
}

// `NAME ANSWER`
fn answer(page: &mut Page, header: &Header, words: &mut Reader) -> bool {
    let name = words.name();
    let answer = answer_of(words, header);
    write_fault(page, &answer, name.as_str()).is_ok()
}

// Prints the line of a command that looks at a ledger or makes one; whether the page took it.
fn print_look(page: &mut Page, kind: &str, words: &mut Reader) -> bool {
    match kind {
        "init" => init(page, words),
        "status" => status(page, words),
        "audit" => audit(page, words),
        _ => {
            words.refuse();
            false
        }
    }
}

// Prints a line that tells what comes of submissions or batches, or another one; whether the page took it.
fn print_line(page: &mut Page, header: &Header, kind: &str, words: &mut Reader) -> bool {
    match kind {
        "fault" => answer(page, header, words),
        "confirmed" => confirmed(page, words),
        "rejected" => rejected(page, words),
        "refused" => refused(page, words),
        "summary" => summary(page, words),
        "resumed" => resumed(page, words),
        "recovery" => recovery(page, words),
        kind => print_look(page, kind, words),
    }
}

// Prints the line that words tell; whether the page took all of it.
fn print(page: &mut Page, header: &Header, words: &[&str], told: &mut Told) -> bool {
    let mut words = Reader::new(told.alloc, words);
    let kind = words.word();
    let took = print_line(page, header, kind, &mut words);
    told.given(words.end());
    took
}

// A page took a front of the text, as much as it has room for, and says so where it is not all of it.
fn check_taken(page: &Page, took: bool, text: &str, room: usize, told: &mut Told) {
    if took != (room == text.len()) {
        told.refuse("a page says something else than that it has room, or none");
    }
    if text.as_bytes().get(..room) != Some(page.bytes.as_slice()) {
        told.refuse("a page with less room has no front of the line");
    }
}

// A page with so much room takes a front of the text, and says so where it is not all of it.
fn check_front(header: &Header, words: &[&str], text: &str, room: usize, told: &mut Told) {
    let mut page = Page::new(told.alloc, room);
    let took = print(&mut page, header, words, told);
    check_taken(&page, took, text, room, told);
}

// The room of a page that takes each line.
const ROOM: usize = 4096;

// A page with room for each line takes the text.
fn check_whole(header: &Header, words: &[&str], text: &str, told: &mut Told) {
    let mut page = Page::new(told.alloc, ROOM);
    print(&mut page, header, words, told);
    check_lines(text, page.bytes.as_slice(), told);
}

// Bytes are those of a text; else both are told.
fn check_lines(wanted: &str, came: &[u8], told: &mut Told) {
    match std::str::from_utf8(came) {
        Ok(came) => told.check_same(wanted, came),
        Err(_) => told.refuse("what came is no text"),
    }
}

/// `line KIND WORD..`, with its text; and a page with less room, whatever it is, takes a front of it and says so.
pub fn line(header: &Header, words: &[&str], text: &str, told: &mut Told) {
    check_whole(header, words, text, told);
    for room in 0..text.len().saturating_add(1) {
        check_front(header, words, text, room, told);
    }
}

// Two statuses are the same; else both are told.
fn check_status(wanted: u64, came: u8, told: &mut Told) {
    let (mut first, mut other) = (Told::new(told.alloc), Told::new(told.alloc));
    first.number(wanted);
    other.number(came as u64);
    told.check_same(first.as_str(), other.as_str());
}

// The plain program says this text; else both are told.
fn check_plain(text: &str, plain: Option<Vec<u8>>, told: &mut Told) {
    match plain {
        Some(plain) => check_lines(text, plain.as_slice(), told),
        None => told.no_memory(),
    }
}

// The plain program says the text of an answer, and it has the status.
fn check_answer(answer: &Answer, name: &str, block: &Block, told: &mut Told) {
    let plain = fault_line(told.alloc, answer, name);
    check_plain(block.text.as_str(), plain, told);
    check_status(block.status, status_code(answer), told);
}

/// `fault NAME ANSWER`, with its text and its status; the plain program says the same. `""` is an empty name, and `_` in a name
/// a blank.
pub fn fault(header: &Header, words: &[&str], block: &Block, told: &mut Told) {
    line(header, words, block.text.as_str(), told);
    let mut words = Reader::new(told.alloc, rest(words, 1));
    let name = words.name();
    let answer = answer_of(&mut words, header);
    check_answer(&answer, name.as_str(), block, told);
}

// The verdict of an audit that words spell.
fn verdict_in(words: &[&str], told: &mut Told) -> Verdict {
    let mut words = Reader::new(told.alloc, words);
    let verdict = verdict_of(&mut words);
    told.given(words.end());
    verdict
}

/// `audited VERDICT`, and its text by the plain program.
pub fn audited(words: &[&str], text: &str, told: &mut Told) {
    let verdict = verdict_in(words, told);
    check_plain(text, verdict_text(told.alloc, &verdict), told);
}
