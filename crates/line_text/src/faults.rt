// The line of each fault.
ghost use Rattle.std.specs.Prelude.{◌≡◌, ◌+◌, ◌≤◌, ◌∷◌, [], ◌++◌, length, codes, decimal};
ghost use Rattle.outside.specs.Counts.{HasCause};
ghost use Rattle.line_text.specs.Faults.{fault_text, input_word, unsound_words};
ghost use Rattle.line_text.specs.Lines.{Prints, continued, line};
ghost use Rattle.line_text.specs.Spells.{Spells};

use crate::WriteFault;
use crate::line::{Line, push, push_end, push_hash, push_number, push_wide, push_word};
use crate::output::write_all;
use cbdc_types::{Answer, InputKind, NodeId, UnsoundKind};
use outside::Sink;

// The word of what is wrong with a file.
fn input_kind(kind: &InputKind) -> &'static [u8]
    ensures word { result.now ≡ input_word kind.now }
    ensures len { length result.now ≤ 8 }
{
    match kind {
        InputKind::Cut => b"cut",
        InputKind::TooMany => b"too-many",
        InputKind::TooLong => b"too-long",
        InputKind::Zero => b"zero",
        InputKind::Extra => b"extra",
        InputKind::Large => b"large",
        InputKind::Form => b"form",
        InputKind::Repeated => b"repeated",
    }
}

// A line that begins with `fault` and one more word.
fn fault(what: &[u8]) -> Line
    requires { length what.now ≤ 20 }
    ensures text { result.items ≡ codes "fault" ++ 32 ∷ what.now }
    ensures len { length result.items ≤ 26 }
{
    let mut line = Line::new();
    push(&mut line, b"fault");
    push_word(&mut line, what);
    line
}

// A fault that has no more words.
fn plain(what: &[u8]) -> Line
    requires { length what.now ≤ 20 }
    ensures { result.items ≡ line (codes "fault" ∷ what.now ∷ []) }
{
    let mut line = fault(what);
    push_end(&mut line);
    line
}

// A fault of a number.
fn numbered(what: &[u8], n: u32) -> Line
    requires { length what.now ≤ 20 }
    ensures { result.items ≡ line (codes "fault" ∷ what.now ∷ decimal n ∷ []) }
{
    let mut line = fault(what);
    push_number(&mut line, u64::from(n));
    push_end(&mut line);
    line
}

// A node is not in some state.
fn not_so(state: &[u8], node: NodeId) -> Line
    requires { length state.now ≤ 20 }
    ensures { result.items ≡ line (codes "fault" ∷ codes "not" ∷ state.now ∷ decimal node ∷ []) }
{
    let mut line = fault(b"not");
    push_word(&mut line, state);
    push_number(&mut line, u64::from(node.0));
    push_end(&mut line);
    line
}

// The minted values are too much.
fn too_much(total: u128) -> Line
    ensures { result.items ≡ line (codes "fault" ∷ codes "minted" ∷ decimal total ∷ []) }
{
    let mut line = fault(b"minted");
    push_wide(&mut line, total);
    push_end(&mut line);
    line
}

// A node has no room.
fn full(node: NodeId, used: u64, need: u64, capacity: u64) -> Line
    ensures { result.items ≡ fault_text (Answer.Full node used need capacity) [] }
{
    let mut line = fault(b"full");
    push_number(&mut line, u64::from(node.0));
    push_word(&mut line, b"used");
    push_number(&mut line, used);
    push_word(&mut line, b"need");
    push_number(&mut line, need);
    push_word(&mut line, b"capacity");
    push_number(&mut line, capacity);
    push_end(&mut line);
    line
}

// Appends what is wrong with a history and ends the line.
fn push_unsound(line: &mut Line, kind: &UnsoundKind)
    requires { length line.old.items ≤ 300 }
    ensures { line.new.items ≡ continued line.old.items (unsound_words kind.now) }
{
    match kind {
        UnsoundKind::Cause => push_word(line, b"cause"),
        UnsoundKind::Unknown(id) => {
            push_word(line, b"unknown");
            push_hash(line, id);
        }
        UnsoundKind::Unfunded(id) => {
            push_word(line, b"unfunded");
            push_hash(line, id);
        }
        UnsoundKind::Unfinished => push_word(line, b"unfinished"),
    }
    push_end(line);
}

// What is wrong with a history.
fn unsound(place: u64, kind: &UnsoundKind) -> Line
    ensures { result.items ≡ fault_text (Answer.Unsound place kind.now) [] }
{
    let mut line = fault(b"unsound");
    push_number(&mut line, place);
    push_unsound(&mut line, kind);
    line
}

// A node's clock is at its end.
fn clock(node: NodeId, stamp: u64) -> Line
    ensures { result.items ≡ line (codes "fault" ∷ codes "clock" ∷ decimal node ∷ decimal stamp ∷ []) }
{
    let mut line = fault(b"clock");
    push_number(&mut line, u64::from(node.0));
    push_number(&mut line, stamp);
    push_end(&mut line);
    line
}

// A node's journal is damaged.
fn damaged(node: NodeId, at: u64) -> Line
    ensures { result.items
        ≡ line (codes "fault" ∷ codes "damaged" ∷ decimal node ∷ codes "at" ∷ decimal at ∷ []) }
{
    let mut line = fault(b"damaged");
    push_number(&mut line, u64::from(node.0));
    push_word(&mut line, b"at");
    push_number(&mut line, at);
    push_end(&mut line);
    line
}

// What stands behind the name of a bad file.
fn behind_name(at: u64, kind: &InputKind) -> Line
    ensures { result.items ≡ ((codes " at" ++ 32 ∷ decimal at) ++ 32 ∷ input_word kind.now) ++ 10 ∷ [] }
{
    let mut line = Line::new();
    push(&mut line, b" at");
    push_number(&mut line, at);
    push_word(&mut line, input_kind(kind));
    push_end(&mut line);
    line
}

// A text of one piece, or of two round the name of a file.
pub(crate) enum Pieces {
    Whole(Line),
    Around(Line, Line),
}

// The text of a bad file.
fn bad_file(at: u64, kind: &InputKind) -> Pieces
    ensures { Spells result (λ name.
        line (codes "fault" ∷ codes "input" ∷ name ∷ codes "at" ∷ decimal at ∷ input_word kind.now ∷ [])) }
{
    let mut front = fault(b"input");
    push_word(&mut front, b"");
    Pieces::Around(front, behind_name(at, kind))
}

// The text of a file that could not be read.
fn unread() -> Pieces
    ensures { Spells result (λ name. line (codes "fault" ∷ codes "read" ∷ name ∷ [])) }
{
    let mut front = fault(b"read");
    push_word(&mut front, b"");
    let mut end = Line::new();
    push_end(&mut end);
    Pieces::Around(front, end)
}

// The text of an answer.
fn text_of(answer: &Answer) -> Pieces
    ensures { Spells result (λ name. fault_text answer.now name) }
{
    match answer {
        Answer::Ok | Answer::WriteFault => Pieces::Whole(Line::new()),
        Answer::BadWords => Pieces::Whole(plain(b"words")),
        Answer::BadInput { at, kind, .. } => bad_file(*at, kind),
        Answer::TooMuch { total } => Pieces::Whole(too_much(*total)),
        Answer::NotReady(node) => Pieces::Whole(not_so(b"ready", *node)),
        Answer::Foreign { node, .. } => Pieces::Whole(numbered(b"foreign", node.0)),
        Answer::NotEmpty(node) => Pieces::Whole(not_so(b"empty", *node)),
        Answer::Full {
            node,
            used,
            need,
            capacity,
        } => Pieces::Whole(full(*node, *used, *need, *capacity)),
        Answer::Unsound { place, kind } => Pieces::Whole(unsound(*place, kind)),
        Answer::ClockEnd { node, stamp } => Pieces::Whole(clock(*node, stamp.0)),
        Answer::Damaged { node, at } => Pieces::Whole(damaged(*node, *at)),
        Answer::ReadFault { .. } => unread(),
        Answer::DiskFault(node) => Pieces::Whole(numbered(b"disk", node.0)),
        Answer::Memory => Pieces::Whole(plain(b"memory")),
    }
}

// Writes two pieces with a name between them.
fn write_around<O: Sink>(
    out: &mut O,
    front: &[u8],
    name: &[u8],
    end: &[u8],
) -> Result<(), WriteFault>
    ensures prints { Prints (O.taken out.old) (O.taken out.new) ((front.now ++ name.now) ++ end.now) result }
    ensures cause { HasCause (O.count out.old) (O.count out.new) result }
{
    match write_both(out, front, name) {
        Ok(()) => write_all(out, end),
        Err(fault) => Err(fault),
    }
}

// Writes two pieces.
fn write_both<O: Sink>(out: &mut O, front: &[u8], end: &[u8]) -> Result<(), WriteFault>
    ensures prints { Prints (O.taken out.old) (O.taken out.new) (front.now ++ end.now) result }
    ensures cause { HasCause (O.count out.old) (O.count out.new) result }
{
    match write_all(out, front) {
        Ok(()) => write_all(out, end),
        Err(fault) => Err(fault),
    }
}

/// Writes the line of an answer that is a fault. The name is that of the file that the answer speaks of,
/// and else is not read. Ok and a fault of the output have no line, and write nothing.
pub fn write_fault<O: Sink>(out: &mut O, answer: &Answer, name: &str) -> Result<(), WriteFault>
    ensures prints { Prints (O.taken out.old) (O.taken out.new) (fault_text answer.now name.now) result }
    ensures cause { HasCause (O.count out.old) (O.count out.new) result }
{
    match text_of(answer) {
        Pieces::Whole(text) => write_all(out, text.as_slice()),
        Pieces::Around(front, end) => write_around(
            out,
            front.as_slice(),
            name.as_bytes(),
            end.as_slice(),
        ),
    }
}
