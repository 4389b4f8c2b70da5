// What faults tell a person, by their Display.
use byte_fields::{Fault, ReadError};
use cbdc_types::{
    BadShape, InputKind, NodeFault, NodeOpenFault, Refusal, Refused, ShapeField, Stamp,
};
use client_files::{BadFile, FetchFault, FileFault};
use line_text::WriteFault;
use outside::Failed;
use record_log::RecordFault;
use requests::WordsFault;
use row_records::Told;
use sentinel::{BadLine, VerdictFault};
use std::fmt::Display;
use tx_codec::{BadTx, ReadFault};

// A line for each.
fn all<F: Display>(told: &mut Told, faults: &[F]) {
    for fault in faults {
        told.shown(fault);
        told.line();
    }
}

fn refusals(told: &mut Told) {
    let faults = [
        Refusal::NoInputs,
        Refusal::NoOutputs,
        Refusal::WitnessCount,
        Refusal::RepeatedInput(1),
        Refusal::ZeroInput(2),
        Refusal::ZeroOutput(0),
        Refusal::InputOverflow,
        Refusal::OutputOverflow,
        Refusal::Unbalanced { ins: 5, outs: 6 },
        Refusal::BurnedInput(3),
        Refusal::PermitCount { ins: 1, outs: 2 },
        Refusal::PermitRaised { was: 5, now: 6 },
        Refusal::BadWitness(3),
        Refusal::Unverified(0),
    ];
    all(told, &faults);
}

fn inputs(told: &mut Told) {
    let faults = [
        InputKind::Cut,
        InputKind::TooMany,
        InputKind::TooLong,
        InputKind::Zero,
        InputKind::Extra,
        InputKind::Large,
        InputKind::Form,
        InputKind::Repeated,
    ];
    all(told, &faults);
}

fn calls(told: &mut Told) {
    let faults = [
        Refused::Stale { kept: 7 },
        Refused::LaneOpen { kept: 7 },
        Refused::NotLocked { kept: 7 },
        Refused::NotFinished { kept: 7 },
        Refused::OtherPart { at: 0 },
        Refused::OtherOutcome { at: 1 },
        Refused::EarlyStamp { kept: Stamp(9) },
    ];
    all(told, &faults);
}

fn nodes(told: &mut Told) {
    let faults = [
        NodeFault::Broken { since: 1 },
        NodeFault::Refused(Refused::Stale { kept: 7 }),
        NodeFault::ClockEnd { stamp: Stamp(9) },
        NodeFault::Full {
            used: 99,
            need: 321,
            capacity: 419,
        },
        NodeFault::DiskFault,
        NodeFault::Memory,
    ];
    all(told, &faults);
}

fn openings(told: &mut Told) {
    let faults = [
        NodeOpenFault::DiskFault,
        NodeOpenFault::NotReady,
        NodeOpenFault::OtherKind,
        NodeOpenFault::Damaged { at: 138 },
        NodeOpenFault::Full {
            used: 99,
            need: 321,
            capacity: 419,
        },
        NodeOpenFault::Memory,
    ];
    all(told, &faults);
}

fn shapes(told: &mut Told) {
    let faults = [
        BadShape {
            field: ShapeField::Shards,
            value: 65,
        },
        BadShape {
            field: ShapeField::Coordinators,
            value: 0,
        },
        BadShape {
            field: ShapeField::Lanes,
            value: 17,
        },
        BadShape {
            field: ShapeField::Batch,
            value: 1025,
        },
    ];
    all(told, &faults);
}

fn files(told: &mut Told) {
    let bad = BadFile {
        at: 152,
        kind: InputKind::Cut,
    };
    all(told, &[bad]);
    all(told, &[FileFault::Bad(bad), FileFault::Memory]);
    all(told, &[FetchFault::ReadFault, FetchFault::Memory]);
}

fn fields(told: &mut Told) {
    let bad = Fault {
        left: 7,
        kind: InputKind::Cut,
    };
    all(told, &[bad]);
    all(told, &[ReadError::Bad(bad), ReadError::Memory]);
}

fn transactions(told: &mut Told) {
    let bad = BadTx {
        at: 24,
        kind: InputKind::TooMany,
    };
    all(told, &[bad]);
    all(told, &[ReadFault::Bad(bad), ReadFault::Memory]);
}

fn verdicts(told: &mut Told) {
    let bad = BadLine {
        line: 2,
        kind: InputKind::Repeated,
    };
    all(told, &[bad]);
    all(
        told,
        &[
            VerdictFault::Bad(bad),
            VerdictFault::Large,
            VerdictFault::Memory,
        ],
    );
}

fn others(told: &mut Told) {
    all(told, &[WordsFault::Bad, WordsFault::Memory]);
    all(told, &[RecordFault::NotARecord, RecordFault::Memory]);
    all(told, &[Failed]);
    all(told, &[WriteFault]);
}

/// `messages OF`: a line for each fault of a kind.
pub fn messages(words: &[&str], told: &mut Told) {
    match told.word_at(words, 0) {
        "refusals" => refusals(told),
        "inputs" => inputs(told),
        "calls" => calls(told),
        "nodes" => nodes(told),
        "openings" => openings(told),
        "shapes" => shapes(told),
        "files" => files(told),
        "fields" => fields(told),
        "transactions" => transactions(told),
        "verdicts" => verdicts(told),
        "others" => others(told),
        _ => told.refuse("no faults of that kind"),
    }
}
