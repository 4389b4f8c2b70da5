// `gen`: a workload from a number, run and checked over nodes in memory.
ghost use Rattle.std.specs.Prelude.{◌≡◌, ◌≤◌, length, All, IfOk, IfErr};
ghost use Rattle.outside.specs.Counts.{Rose};
ghost use Rattle.cbdc_types.specs.Limits.{IsWithinLimits};
ghost use Rattle.command_answers.specs.Causes.{IsAnswerToRequest, HasToldCause, IsWell};
ghost use Rattle.gen_command.specs.Generated.{files_of as files_from, PrintsWorkload, WhyNoWorkload};
ghost use Rattle.gen_command.specs.InMemory.{AreDisksReady, AreMirrorsEmpty, HaveRoomForFiles, TellsRunOf, IsCheckedSound, IsUnchecked, IsWorkloadResult};
ghost use Rattle.command_answers.specs.Texts.{IsPrinted, IsSilent};
ghost use Rattle.input_files.specs.Limits.{IsShort};
ghost use Rattle.mirror_devices.specs.MirrorRacks.{NoMirrorOut};
ghost use Rattle.workload.specs.Generator.{mint_of};

use crate::lines::write_workload;
use crate::watched::value_seen;
use audit::Verdict;
use audit_command::joined;
use cbdc_types::{Answer, FullTx, List, Mint, Output, Shape, Totals};
use file_runs::Ran;
use ledger_init::{Made, make_ledger};
use mirror_devices::MirrorRack;
use outside::{Gate, Sink};
use rack_ledgers::audit_on;
use rack_runs::run_on;
use requests::{GenOptions, RunOptions};
use sentinel::AllGood;
use std::alloc::{AllocError, Global};
use std::sync::Wait;
use std::thread::Threads;
use workload::{Clients, generate_clients};

// What the run and the audit of a workload come to, and the value of the cut of what an auditor saw.
#[derive(Drop)]
struct Came {
    ran: Ran,
    totals: Totals,
    cut: Option<u128>,
}

// A mint and the client files behind it.
#[derive(Drop)]
struct Files {
    mint: Mint,
    clients: Vec<List<FullTx>>,
}

// The files of the workload of so many transactions from a seed. Each input's witness is good in it.
fn files_of(alloc: Global, seed: u64, count: u32) -> Result<Files, AllocError>
    requires { count ≤ 10000 }
    ensures mint { IfOk result (λ f. f.mint ≡ mint_of seed count) }
    ensures clients { IfOk result (λ f. f.clients.items ≡ files_from seed count) }
    ensures few { IfOk result (λ f. length f.mint ≤ 1000000) }
    ensures short { IfOk result (λ f. All (λ txs. All IsShort txs) f.clients.items) }
{
    let Clients {
        mint,
        splits,
        joins,
    } = generate_clients(alloc, seed, u64::from(count))?;
    let mut clients = Vec::with_capacity(alloc, 2)?;
    clients.push(splits)?;
    clients.push(joins)?;
    Ok(Files { mint, clients })
}

// The empty nodes in memory of a ledger, with room for a workload of so many transactions. A shard has so many disks beside its own.
fn rack_of(
    alloc: Global,
    shape: &Shape,
    count: u32,
    replicas: u32,
) -> Result<MirrorRack, AllocError>
    requires few { count ≤ 10000 }
    requires copies { replicas ≤ 3 }
    ensures limits { IsWithinLimits shape.now }
    ensures all { IfOk result NoMirrorOut }
    ensures empty { IfOk result (AreMirrorsEmpty shape.now replicas count) }
{
    let coordinators = shape.coordinators();
    let nodes = coordinators + shape.shards();
    let capacity = 4096 + 400 * count as usize;
    MirrorRack::new(alloc, coordinators, nodes, replicas, capacity)
}

// Makes the ledger of a mint on empty disks, and runs client files over it, the first with an auditor beside its lanes if there is to be one.
fn run_files<W: Wait + Threads + Sync, G: Gate + Sync>(
    rt: &W,
    alloc: Global,
    shape: &Shape,
    mint: Mint,
    clients: &[List<FullTx>],
    rack: &mut MirrorRack,
    watch: bool,
    gate: &G,
) -> Result<Ran, Answer>
    requires all { NoMirrorOut rack.old }
    requires few { length mint ≤ 1000000 }
    requires short { All (λ txs. All IsShort txs) clients.now }
    requires ready { AreDisksReady shape.now mint rack.old }
    requires room { HaveRoomForFiles shape.now mint clients.now rack.old }
    ensures did { IfOk result (TellsRunOf shape.now mint clients.now rack.new) }
    ensures why { IfErr result (λ e. e ≡ Answer.Memory) }
    ensures back { NoMirrorOut rack.new }
{
    let Made {
        coins: _,
        total: _,
        genesis: _,
    } = match make_ledger(alloc, rack, shape, mint) {
        Ok(made) => made,
        Err(fault) => return Err(fault),
    };
    let options = RunOptions { repeats: 0 };
    run_on(rt, alloc, rack, clients, &AllGood, options, watch, gate)
}

// Checks the ledger against its mint and what was handed in.
fn check_files<W: Threads + Sync>(
    rt: &W,
    alloc: Global,
    mint: &[Output],
    handed: &[FullTx],
    rack: &mut MirrorRack,
) -> Result<Totals, Answer>
    requires all { NoMirrorOut rack.old }
    ensures did { IfOk result (IsCheckedSound rack.old mint.now handed.now) }
    ensures why { IfErr result (IsUnchecked rack.old rack.new mint.now handed.now) }
{
    match audit_on(rt, alloc, rack, mint, handed) {
        Ok(Verdict::Sound(totals)) => Ok(totals),
        Ok(Verdict::Unsound { place, kind }) => Err(Answer::Unsound { place, kind }),
        Err(fault) => Err(fault),
    }
}

// A mint once more.
fn copied(mint: &Mint) -> Result<Mint, AllocError>
    ensures { IfOk result (λ m. m ≡ mint.now) }
{
    mint.clone()
}

// Makes the workload, runs it over nodes in memory and checks the result, and the cut of what an auditor saw if one was to look.
fn run_workload<W: Wait + Threads + Sync, G: Gate + Sync>(
    rt: &W,
    alloc: Global,
    shape: &Shape,
    seed: u64,
    count: u32,
    options: GenOptions,
    gate: &G,
) -> Result<Came, Answer>
    requires few { count ≤ 10000 }
    requires copies { options.replicas ≤ 3 }
    ensures did { IfOk result
        (λ c. IsWorkloadResult shape.now seed count options c.ran c.totals c.cut) }
    ensures why { IfErr result (WhyNoWorkload shape.now seed count options.watch) }
{
    let Ok(Files { mint, clients }) = files_of(alloc, seed, count) else {
        return Err(Answer::Memory);
    };
    let Ok(mut rack) = rack_of(alloc, shape, count, options.replicas) else {
        return Err(Answer::Memory);
    };
    let Ok(kept) = copied(&mint) else {
        return Err(Answer::Memory);
    };
    let ran = match run_files(
        rt,
        alloc,
        shape,
        mint,
        &clients,
        &mut rack,
        options.watch,
        gate,
    ) {
        Ok(ran) => ran,
        Err(fault) => return Err(fault),
    };
    let Ok(handed) = joined(alloc, clients) else {
        return Err(Answer::Memory);
    };
    let totals = match check_files(rt, alloc, kept.as_slice(), &handed, &mut rack) {
        Ok(totals) => totals,
        Err(fault) => return Err(fault),
    };
    match value_seen(
        rt,
        alloc,
        shape,
        options.watch,
        &ran.waves,
        kept.as_slice(),
        &handed,
    ) {
        Ok(cut) => Ok(Came { ran, totals, cut }),
        Err(fault) => Err(fault),
    }
}

/// Makes the workload of so many transactions from a seed, runs it over nodes in memory and prints the numbers that
/// end a run and those of an audit. The rack that the program was handed is not touched. Each shard writes to so many
/// disks beside its own; the text is the same for every number of them. If an auditor is to look beside the lanes of the first file, the value of the
/// cut of what it saw is printed last.
///
/// Where it comes through: the rack is as it was. The text is that of a run of the workload between kept journals and of a sound audit of them; where
/// no hashes of the workload clash it is one text for every schedule, with all transactions confirmed, and the value of the cut is what was minted
/// (clause `did` of `process`).
pub fn generated<W: Wait + Threads + Sync, O: Sink, G: Gate + Sync>(
    rt: &W,
    alloc: Global,
    shape: &Shape,
    seed: u64,
    count: u32,
    options: GenOptions,
    out: &mut O,
    gate: &G,
) -> Answer
    requires few { count ≤ 10000 }
    requires copies { options.replicas ≤ 3 }
    ensures cause { IsAnswerToRequest (λ file. ⊥) (λ file. ⊥)
        (Rose (O.count out.old) (O.count out.new)) result }
    ensures did { IsWell result
        → PrintsWorkload (IsPrinted (O.taken out.old) (O.taken out.new) result) shape.now seed count options }
    ensures why { HasToldCause (WhyNoWorkload shape.now seed count options.watch) result }
    ensures silent { IsSilent (O.taken out.old) (O.taken out.new) result }
    ensures written_later { O.count out.old ≤ O.count out.new }
{
    let came = match run_workload(rt, alloc, shape, seed, count, options, gate) {
        Ok(came) => came,
        Err(fault) => return fault,
    };
    match write_workload(out, &came.ran, &came.totals, came.cut) {
        Ok(()) => Answer::Ok,
        Err(_) => Answer::WriteFault,
    }
}
