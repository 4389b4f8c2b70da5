//! Commands that resume: the ledger on a rack is opened, the command's own test of it made, its open batches brought to their end, a work done, and
//! all disks put back. Client files are one work.
//!
//! - `run_on`: At Ok and behind a lane's fault the disks, as far as they told, held a ledger, within its limits, each record of whose history was
//!   caused by what was before it (what is told of each node's disk opens to its journal). Its disks had room for their journals and for what is kept
//!   for the batches open there. Its journals have grown at their ends, by records that are caused too, and for them and for what is kept each disk
//!   has room at exit. In each place there is as much room as there was, and the disks that are no nodes of this ledger are as before.
//! - `run_on`: At Ok, where all disks were told, whatever a crash leaves of each opens to exactly its node's journal. Of whatever kept ledger the
//!   rack showed, the open batches were brought to their end, the files' waves follow, the journals are kept, whatever a crash leaves of a disk opens
//!   to exactly its node's journal, for which and for what is kept it has room, and where no hashes clash the headline holds.
//! - `run_on`: Else why the ledger was not opened, or the first record that was not caused, and the disks are back as they were read; or the disks,
//!   as far as they told, held a ledger in which each record was caused, and a lane met a fault. What is answered then has its cause, by the journals
//!   of that ledger and those that the disks hold now, as the next items say.
//! - `run_on`: DiskFault only of a node of its shape that the lane asks, as of `run_wave`, and whose count on the rack rose in this call.
//! - `run_on`: Full only where, behind a front of the node's journal, the used bytes and the need that are reported pass the capacity of the disk
//!   that was told. The journal at entry begins this front, and behind it is nothing of the lane. The need is that of the Prepare of the next piece
//!   of what the files send an idle lane (its new Prepares are the pieces before it), or of the first Lock that a prepared batch of a lane still
//!   lacks, at that shard. This record, with a stamp of at most 2^62, may come next behind that front: it is in the grammar of its node and follows
//!   the rules.
//! - `run_on`: ClockEnd only of such a record whose stamp, the one told, is above 2^62, and which breaks no rule there but that of its stamp. So may
//!   whatever a lane wants come next, behind each such front, whichever lane's fault is reported.
//! - `run_on`: A record is in flight, so that a disk may hold it behind its node's journal or not, only at a node whose count on the rack rose in
//!   this call; a Prepare only that of the next piece of what the files send its lane (so at a recovery none).
//! - `run_on`: At Ok and at a fault open batches are taken up in rising order of their lanes, each by records of its lane alone, and nothing else is
//!   written before all lanes are idle. Where the journals at entry are kept, all new records at all nodes, shards too, are of batches that were open
//!   there. Or the open batches and then the waves of the first of the files are at their end, and all records behind those are of batches that were
//!   not prepared then and that the next file alone has begun.
//! - `run_on`: The journals of whatever kept ledger the rack showed have grown at their ends and are kept, each by its disk, with one record more or
//!   without and with room for what is kept for its open batches. Whatever a crash leaves of the disks opens to kept journals too, which those at
//!   entry begin, with room for them and for what is kept for the batches open there.
//! - `run_on`: At the end each lane is idle, or its batch lacks a Lock, or the disk of a node that it asks has failed. Or its batch was prepared and
//!   is so still, and the answer is that memory ran out, or a lesser lane has its batch open still; or that memory ran out is the answer, and nothing
//!   was written.
//! - `run_on`: The fault is that of the least lane that met one, by its cause as of `run_files`. Either that lane met it as the open batches were
//!   brought to their end, and all lesser lanes are idle (where memory ran out that lane is prepared still, or nothing at all was done). Or it met it
//!   behind that, in a file, of which each lesser lane has run all, and each greater one, too, or that one met a fault of its own, as `run_files`
//!   says. Where the answer is that memory ran out this is so as well, of a lane that memory ran out for; or all came through, and it ran out behind
//!   that.
//! - Open: That memory did run out for a lane above the one whose fault ended a file, which has something left and is between two batches or lacks a
//!   Lock. Nothing counts refusals, so a body that does not run such a lane at all meets the clauses of `run_on` (`run_wave` tells each lane's fault;
//!   tested in `ledger_rows`: `lanes.rows`).
#![tactic(auto)]

mod faults;
mod files;
mod nodes;
mod racks;
mod resuming;
mod told;
mod works;

pub use racks::{begin_on, end_on, recover_on, run_on};
pub use told::Told;
pub use works::{Begun, Work, Worked};
