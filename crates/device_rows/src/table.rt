// How long it takes to put hashes into a shard's table and into std's hash map, to find them there and to take them out.

use cbdc_types::Hash;
use shard_table::Table;
use std::alloc::{AllocError, Global};
use std::collections::HashMap;
use std::io::{self, ErrorKind};
use std::time::Instant;

/// What the three parts of a measure took, in seconds.
#[derive(Clone, Copy, Debug)]
struct Times {
    put: f64,
    found: f64,
    taken: f64,
}

// A hash with the digits of a number spread over its bytes, as a digest's are.
fn hash_of(i: u64) -> Hash {
    let a = i.wrapping_mul(0x9E37_79B9_7F4A_7C15);
    let b = (a ^ (a >> 29)).wrapping_mul(0xBF58_476D_1CE4_E5B9);
    let c = (b ^ (b >> 32)).wrapping_mul(0x94D0_49BB_1331_11EB);
    let mut bytes = [0u8; 32];
    bytes[0..8].copy_from_slice(&a.to_be_bytes());
    bytes[8..16].copy_from_slice(&c.to_be_bytes());
    bytes[16..24].copy_from_slice(&b.to_be_bytes());
    bytes[24..32].copy_from_slice(&i.to_be_bytes());
    Hash(bytes)
}

fn hashes_of(alloc: Global, count: u64) -> Result<Vec<Hash>, AllocError> {
    let mut hashes = Vec::with_capacity(alloc, count as usize)?;
    for i in 0..count {
        hashes.push(hash_of(i))?;
    }
    Ok(hashes)
}

fn put_all(table: &mut Table, hashes: &[Hash]) -> Result<(), AllocError> {
    for x in hashes {
        table.reserve(1)?;
        table.insert(*x);
    }
    Ok(())
}

fn count_found(table: &Table, hashes: &[Hash]) -> usize {
    hashes.iter().filter(|x| table.contains(x)).count()
}

fn take_all(table: &mut Table, hashes: &[Hash]) {
    for x in hashes {
        table.remove(x);
    }
}

fn put_all_mapped(map: &mut HashMap<Hash, ()>, hashes: &[Hash]) -> Result<(), AllocError> {
    for x in hashes {
        map.insert(*x, ())?;
    }
    Ok(())
}

fn count_mapped(map: &HashMap<Hash, ()>, hashes: &[Hash]) -> usize {
    hashes.iter().filter(|x| map.contains_key(*x)).count()
}

fn take_all_mapped(map: &mut HashMap<Hash, ()>, hashes: &[Hash]) {
    for x in hashes {
        map.remove(x);
    }
}

// An answer that is not what it must be ends the measure.
fn check(holds: bool) -> io::Result<()> {
    if holds {
        Ok(())
    } else {
        Err(io::Error::from(ErrorKind::InvalidData))
    }
}

// How long it takes to put the hashes into the table.
fn time_puts(rt: &HostRuntime, table: &mut Table, hashes: &[Hash]) -> io::Result<f64> {
    let start = Instant::now(rt)?;
    put_all(table, hashes)?;
    Ok(start.elapsed(rt)?.as_secs_f64())
}

// How long it takes to find them all there.
fn time_finds(rt: &HostRuntime, table: &Table, hashes: &[Hash]) -> io::Result<f64> {
    let start = Instant::now(rt)?;
    check(count_found(table, hashes) == hashes.len())?;
    Ok(start.elapsed(rt)?.as_secs_f64())
}

// How long it takes to take them all out.
fn time_takes(rt: &HostRuntime, table: &mut Table, hashes: &[Hash]) -> io::Result<f64> {
    let start = Instant::now(rt)?;
    take_all(table, hashes);
    Ok(start.elapsed(rt)?.as_secs_f64())
}

// The three times of a table, which is empty before and behind them.
fn time_table(rt: &HostRuntime, table: &mut Table, hashes: &[Hash]) -> io::Result<Times> {
    let put = time_puts(rt, table, hashes)?;
    let found = time_finds(rt, table, hashes)?;
    let taken = time_takes(rt, table, hashes)?;
    check(table.is_empty())?;
    Ok(Times { put, found, taken })
}

fn measure_table(rt: &HostRuntime, hashes: &[Hash]) -> io::Result<Times> {
    let mut table = Table::new(rt.alloc());
    time_table(rt, &mut table, hashes)
}

// How long it takes to put the hashes into a map.
fn time_puts_mapped(
    rt: &HostRuntime,
    map: &mut HashMap<Hash, ()>,
    hashes: &[Hash],
) -> io::Result<f64> {
    let start = Instant::now(rt)?;
    put_all_mapped(map, hashes)?;
    Ok(start.elapsed(rt)?.as_secs_f64())
}

// How long it takes to find them all there.
fn time_finds_mapped(
    rt: &HostRuntime,
    map: &HashMap<Hash, ()>,
    hashes: &[Hash],
) -> io::Result<f64> {
    let start = Instant::now(rt)?;
    check(count_mapped(map, hashes) == hashes.len())?;
    Ok(start.elapsed(rt)?.as_secs_f64())
}

// How long it takes to take them all out.
fn time_takes_mapped(
    rt: &HostRuntime,
    map: &mut HashMap<Hash, ()>,
    hashes: &[Hash],
) -> io::Result<f64> {
    let start = Instant::now(rt)?;
    take_all_mapped(map, hashes);
    Ok(start.elapsed(rt)?.as_secs_f64())
}

// The three times of a map, which is empty before and behind them.
fn time_map(rt: &HostRuntime, map: &mut HashMap<Hash, ()>, hashes: &[Hash]) -> io::Result<Times> {
    let put = time_puts_mapped(rt, map, hashes)?;
    let found = time_finds_mapped(rt, map, hashes)?;
    let taken = time_takes_mapped(rt, map, hashes)?;
    check(map.is_empty())?;
    Ok(Times { put, found, taken })
}

fn measure_map(rt: &HostRuntime, hashes: &[Hash]) -> io::Result<Times> {
    let mut map = HashMap::new(rt.alloc());
    time_map(rt, &mut map, hashes)
}

fn tell(rt: &HostRuntime, name: &str, count: usize, times: &Times) -> io::Result<()> {
    eprintln!(rt;
        "{count} hashes in {name}: put in {} s, found in {} s, taken out in {} s",
        times.put, times.found, times.taken
    )?;
    Ok(())
}

// Measures both with these hashes.
fn measure_both(rt: &HostRuntime, hashes: &[Hash]) -> io::Result<()> {
    tell(rt, "a table", hashes.len(), &measure_table(rt, hashes)?)?;
    tell(rt, "a hash map", hashes.len(), &measure_map(rt, hashes)?)
}

/// Measures both with so many hashes.
pub fn measure(rt: &HostRuntime, count: u64) -> io::Result<()> {
    let hashes = hashes_of(rt.alloc(), count)?;
    measure_both(rt, hashes.as_slice())
}

// The number that a word spells.
fn number(word: &str) -> io::Result<u64> {
    match word.parse::<u64>() {
        Ok(count) => Ok(count),
        Err(_) => Err(io::Error::from(ErrorKind::InvalidInput)),
    }
}

/// Measures both with as many hashes as each word says, or with 100,000 where there is none.
pub fn measure_each(rt: &HostRuntime, counts: &[String]) -> io::Result<()> {
    if counts.is_empty() {
        return measure(rt, 100_000);
    }
    for count in counts {
        measure(rt, number(count.as_str())?)?;
    }
    Ok(())
}
