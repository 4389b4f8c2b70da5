// What holds of writing and reading together.
ghost use Rattle.std.specs.Prelude.{◌≡◌, IfOk};
ghost use Rattle.cbdc_model.specs.Grammar.{IsInGrammar};
ghost use Rattle.record_log.specs.Bodies.{body_of};
ghost use Rattle.record_log.specs.Exact.{ReadsRecord};
ghost use Rattle.record_log.specs.Laws.{OneBodyLaw, SizeLaw};

use crate::fault::RecordFault;
use crate::reading::read_record;
use crate::writing::write_record;
use cbdc_types::{Header, Record};
use std::alloc::{AllocError, Global};

// The body in a vector of its own.
fn body_of_record(alloc: Global, record: &Record, header: &Header) -> Result<Vec<u8>, AllocError>
    ensures { IfOk result (λ v. v.items ≡ body_of «record».now) }
{
    let mut body = Vec::new(alloc);
    write_record(record, header, &mut body)?;
    Ok(body)
}

/// Writes a record and reads it again: where it may stand under the header it comes back the same, or memory ran out.
pub fn read_back(alloc: Global, record: &Record, header: &Header) -> Result<Record, RecordFault>
    ensures { IsInGrammar header.now «record».now → ReadsRecord «record».now result }
{
    match body_of_record(alloc, record, header) {
        Ok(body) => read_record(alloc, body.as_slice(), header),
        Err(_) => Err(RecordFault::Memory),
    }
}

/// Two records have two bodies, and no body is the front of another.
pub fn one_body_law()
    ensures { OneBodyLaw }
{}

/// A gate, eight bytes of length and the body are as many bytes as the record takes in its journal.
pub fn size_law()
    ensures { SizeLaw }
{}
