// Bodies of records, whatever headers they stand under.
ghost use Rattle.std.specs.Prelude.{◌≡◌, IfOk};
ghost use Rattle.record_log.specs.Bodies.{body_of};
ghost use Rattle.record_log.specs.Exact.{IsFirstRecord, ReadsRecord};
ghost use Rattle.byte_laws.specs.Bodies.{EachBodyLaw};

use cbdc_types::{Header, Record};
use record_log::{RecordFault, read_first, write_record};
use std::alloc::{AllocError, Global};

/// Two records have two bodies, and no body is the front of another, whichever headers they stand under.
pub fn each_body_law()
    ensures { EachBodyLaw }
{}

// The body in a vector of its own.
fn body_of_first(alloc: Global, first: &Record, header: &Header) -> Result<Vec<u8>, AllocError>
    ensures { IfOk result (λ v. v.items ≡ body_of first.now) }
{
    let mut body = Vec::new(alloc);
    write_record(first, header, &mut body)?;
    Ok(body)
}

/// Writes a record and reads it again as the first of a journal: where a journal may begin with it, it comes back the
/// same, or memory ran out.
pub fn first_read_back(
    alloc: Global,
    first: &Record,
    header: &Header,
) -> Result<Record, RecordFault>
    ensures { IsFirstRecord first.now → ReadsRecord first.now result }
{
    match body_of_first(alloc, first, header) {
        Ok(body) => read_first(alloc, body.as_slice()),
        Err(_) => Err(RecordFault::Memory),
    }
}
