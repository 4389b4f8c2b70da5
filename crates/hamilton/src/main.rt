//! The program: the real devices, the top call, and the exit status.
//!
//! - Its `main` calls `process` with the real devices and ends with its status. The gate runs it on all that README.md, the tutorial and the
//!   examples show; the system calls of a run on its journals, syncs of files and of folders among them, are traced and compared with docs/FORMATS.md
//!   (`tools/gate/trace-syncs`).
#![tactic(auto)]

use cbdc_types::Answer;
use commands::{Done, process};
use host_devices::{CallTimes, FileInbox, FileRack, StandardFiles, StdoutSink};
use line_text::{status_code, write_fault};
use std::process::ExitCode;
use std::{env, io};

// The status of an answer that comes before the top call can be made.
fn early(out: &mut StdoutSink<&HostRuntime>, answer: Answer) -> ExitCode {
    let _ = write_fault(out, &answer, "");
    ExitCode::from(status_code(&answer))
}

fn main(rt: HostRuntime) -> ExitCode {
    let _standard = StandardFiles::keep(&rt);
    let alloc = rt.alloc();
    let mut out = StdoutSink::new(&rt);
    let args = match env::args(&rt) {
        Ok(args) => args,
        Err(fault) if fault.kind() == io::ErrorKind::OutOfMemory => {
            return early(&mut out, Answer::Memory);
        }
        Err(_) => return early(&mut out, Answer::BadWords),
    };
    let Ok(words) = args.collect::<Vec<String>>(alloc) else {
        return early(&mut out, Answer::Memory);
    };
    let mut inbox = FileInbox::new(&rt, alloc);
    let rack = FileRack::new(&rt, alloc);
    let Done { status, rack: _ } = process(
        &rt,
        alloc,
        words.as_slice(),
        &mut inbox,
        rack,
        &mut out,
        &CallTimes::new(&rt),
    );
    ExitCode::from(status_code(&status))
}
