// Writing a record.
ghost use Rattle.std.specs.Prelude.{◌≡◌, ◌++◌, ◌+◌, ◌<◌, ◌≤◌, length, OnOk, OnErr};
ghost use Rattle.std.specs.Vec.{vec_len, vec_capacity};
ghost use Rattle.byte_fields.specs.Records.{batch_bytes};
ghost use Rattle.record_log.specs.Bodies.{magic, header_bytes, head, body_of};

use crate::measure::length_of_body;
use byte_fields::{Spell, put_byte, put_hash, put_list, put_number};
use cbdc_types::{BatchId, Header, Record, RecordKind};
use std::alloc::AllocError;

fn put_magic(out: &mut Vec<u8>) -> Result<(), AllocError>
    ensures ok { OnOk result (out.new.items ≡ out.old.items ++ magic) }
    ensures len { OnOk result (vec_len out.new ≡ vec_len out.old + 8) }
    ensures full { OnErr result (vec_capacity out.old < vec_len out.old + 8) }
    ensures capacity { vec_capacity out.old ≤ vec_capacity out.new }
{
    out.extend_from_slice(&[72, 65, 77, 74, 82, 78, 76, 49])
}

fn put_header(out: &mut Vec<u8>, h: &Header) -> Result<(), AllocError>
    ensures ok { OnOk result (out.new.items ≡ out.old.items ++ header_bytes h.now) }
    ensures len { OnOk result (vec_len out.new ≡ vec_len out.old + length (header_bytes h.now)) }
    ensures full { OnErr result (vec_capacity out.old < vec_len out.old + length (header_bytes h.now)) }
    ensures capacity { vec_capacity out.old ≤ vec_capacity out.new }
{
    put_magic(out)?;
    put_number(out, h.node.0 as u64)?;
    put_number(out, h.shape.shards() as u64)?;
    put_number(out, h.shape.coordinators() as u64)?;
    put_number(out, h.shape.lanes() as u64)?;
    put_number(out, h.shape.batch() as u64)?;
    put_hash(out, &h.genesis)
}

// The kind and the stamp.
fn put_head(out: &mut Vec<u8>, kind: u8, stamp: u64) -> Result<(), AllocError>
    ensures ok { OnOk result (out.new.items ≡ out.old.items ++ head kind stamp) }
    ensures len { OnOk result (vec_len out.new ≡ vec_len out.old + length (head kind stamp)) }
    ensures full { OnErr result (vec_capacity out.old < vec_len out.old + length (head kind stamp)) }
    ensures capacity { vec_capacity out.old ≤ vec_capacity out.new }
{
    put_byte(out, kind)?;
    put_number(out, stamp)
}

// The head of a record of a batch.
fn put_batch(out: &mut Vec<u8>, kind: u8, stamp: u64, b: &BatchId) -> Result<(), AllocError>
    ensures ok { OnOk result (out.new.items ≡ out.old.items ++ (head kind stamp ++ batch_bytes b.now)) }
    ensures len { OnOk result (vec_len out.new
        ≡ vec_len out.old + length (head kind stamp ++ batch_bytes b.now)) }
    ensures full { OnErr result (vec_capacity out.old
        < vec_len out.old + length (head kind stamp ++ batch_bytes b.now)) }
    ensures capacity { vec_capacity out.old ≤ vec_capacity out.new }
{
    put_head(out, kind, stamp)?;
    b.put(out)
}

// The body, behind what the vector holds.
fn put_body(record: &Record, out: &mut Vec<u8>) -> Result<(), AllocError>
    ensures ok { OnOk result (out.new.items ≡ out.old.items ++ body_of record.now) }
    ensures full { OnErr result (vec_capacity out.old < vec_len out.old + length (body_of record.now)) }
    ensures capacity { vec_capacity out.old ≤ vec_capacity out.new }
{
    match record {
        Record::Genesis { header, hashes } => {
            put_head(out, RecordKind::Genesis as u8, 0)?;
            put_header(out, header)?;
            put_list(out, hashes)
        }
        Record::Lock {
            stamp,
            batch,
            entries,
        } => {
            put_batch(out, RecordKind::Lock as u8, stamp.0, batch)?;
            put_list(out, entries)
        }
        Record::Finish {
            stamp,
            batch,
            decisions,
        } => {
            put_batch(out, RecordKind::Finish as u8, stamp.0, batch)?;
            put_list(out, decisions)
        }
        Record::Forget { stamp, batch } => put_batch(out, RecordKind::Forget as u8, stamp.0, batch),
        Record::Start { header } => {
            put_head(out, RecordKind::Start as u8, 0)?;
            put_header(out, header)
        }
        Record::Prepare { stamp, batch, txs } => {
            put_batch(out, RecordKind::Prepare as u8, stamp.0, batch)?;
            put_list(out, txs)
        }
        Record::Commit {
            stamp,
            batch,
            outcomes,
        } => {
            put_batch(out, RecordKind::Commit as u8, stamp.0, batch)?;
            put_list(out, outcomes)
        }
        Record::Discard { stamp, batch } => put_batch(
            out,
            RecordKind::Discard as u8,
            stamp.0,
            batch,
        ),
        Record::Done { stamp, batch } => put_batch(out, RecordKind::Done as u8, stamp.0, batch),
        // No bytes have these yet.
        Record::Upgrade { .. } => Ok(()),
        Record::Carry { .. } => Ok(()),
        Record::CarryStart { .. } => Ok(()),
        Record::Seal { .. } => Ok(()),
    }
}

/// Puts a record's body at the end. Memory runs out only where the vector's free capacity is less than the body, and the
/// vector is then as before: the room for the whole body is taken first.
pub fn write_record(record: &Record, header: &Header, out: &mut Vec<u8>) -> Result<(), AllocError>
    ensures ok { OnOk result (out.new.items ≡ out.old.items ++ body_of record.now) }
    ensures err { OnErr result (out.new.items ≡ out.old.items) }
    ensures full { OnErr result (vec_capacity out.old < vec_len out.old + length (body_of record.now)) }
    ensures capacity { vec_capacity out.old ≤ vec_capacity out.new }
{
    let _ = header;
    out.reserve(length_of_body(record) as usize)?;
    put_body(record, out)
}
