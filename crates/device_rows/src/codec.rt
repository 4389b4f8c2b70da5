// How long it takes to read client files, and to write their transactions again.

use cbdc_types::FullTx;
use client_files::read_clients;
use std::alloc::Global;
use std::fs;
use std::io::{self, ErrorKind};
use std::time::Instant;
use tx_codec::write_tx;

// Puts the spelling of each transaction at the end.
fn write_each(alloc: Global, txs: &[FullTx], out: &mut Vec<u8>) -> io::Result<()> {
    for tx in txs {
        write_tx(alloc, tx, out)?;
    }
    Ok(())
}

// How long it takes to write the transactions of a file again, as they stand at its end.
fn time_writing(
    rt: &HostRuntime,
    bytes: &[u8],
    txs: &[FullTx],
    out: &mut Vec<u8>,
) -> io::Result<f64> {
    let start = Instant::now(rt)?;
    write_each(rt.alloc(), txs, out)?;
    let seconds = start.elapsed(rt)?.as_secs_f64();
    if !out.is_empty() && bytes.ends_with(out.as_slice()) {
        Ok(seconds)
    } else {
        Err(io::Error::from(ErrorKind::InvalidData))
    }
}

// Writes the transactions of a file again, and tells both times.
fn measure_txs(
    rt: &HostRuntime,
    name: &str,
    bytes: &[u8],
    txs: &[FullTx],
    reading: f64,
) -> io::Result<()> {
    let mut out = Vec::new(rt.alloc());
    let writing = time_writing(rt, bytes, txs, &mut out)?;
    eprintln!(rt;
        "{name}: {} transactions, {} bytes: read in {reading} s, written in {writing} s",
        txs.len(),
        bytes.len()
    )
}

// Reads the transactions of a file, and writes them again.
fn measure_bytes(rt: &HostRuntime, name: &str, bytes: &[u8]) -> io::Result<()> {
    let start = Instant::now(rt)?;
    let Ok(txs) = read_clients(rt.alloc(), bytes, false, 0) else {
        return Err(io::Error::from(ErrorKind::InvalidData));
    };
    let reading = start.elapsed(rt)?.as_secs_f64();
    measure_txs(rt, name, bytes, txs.as_slice(), reading)
}

fn measure(rt: &HostRuntime, name: &str) -> io::Result<()> {
    let bytes = fs::read(rt, name)?;
    measure_bytes(rt, name, bytes.as_slice())
}

/// Reads the client files `one` and `eight`, whose transactions have one input each and eight, and writes their transactions again.
pub fn measure_files(rt: &HostRuntime) -> io::Result<()> {
    measure(rt, "one")?;
    measure(rt, "eight")
}
