// Opening nodes.
ghost use Rattle.std.specs.Prelude.{◌≡◌, ◌^◌, ◌+◌, ◌≤◌, ◌<◌, ℕ, length, IfOk, IfErr, OnErr};
ghost use Rattle.std.specs.Option.{option_copied};
ghost use Rattle.outside.specs.Images.{Tells};
ghost use Rattle.rack_ledgers.specs.Places.{EachFrom, MayReturn, IsOpening, IsOpeningIn};
ghost use Rattle.rack_ledgers.specs.Others.{KeepsOthers};
ghost use Rattle.rack_ledgers.specs.Racked.{OfTold, IsDiskBack, IsNodeOpened, ListGoesOn, FailsFirst};

use crate::OnDisk;
use crate::close::close_all;
use cbdc_types::{Answer, Header, NodeId};
use outside::Rack;
use std::alloc::Global;

/// Takes the disk of a node and opens what should stand on it. After a fault the disk is back.
pub fn open_one<R: Rack, N: OnDisk<R::Disk>>(
    alloc: Global,
    rack: &mut R,
    node: NodeId,
    ledger: Option<&Header>,
) -> Result<N, Answer>
    requires { R.can_take rack.old node }
    // It is the node that was asked for, and stands for what was told of its disk.
    ensures opened { IfOk result
        (λ n. OfTold (R.held rack.old node) (λ was. IsNodeOpened R.Disk.Disk N.disk_of N.opens was n)) }
    ensures fits { IfOk result (N.fits node (option_copied ledger.entry)) }
    ensures since { IfOk result (λ n. R.count rack.old node ≤ R.Disk.count (N.disk_of n)) }

    // Why it is not, and the disk is back.
    ensures refusal { IfErr result (λ e. OfTold (R.held rack.old node) (λ was. Tells (R.Disk.content was)
        (λ c. N.refused node (option_copied ledger.entry) (R.Disk.limit was) c e))) }
    ensures kind { IfErr result N.refusals }
    ensures held { OnErr result (IsDiskBack R.Disk.Disk
        (R.count rack.old node) (R.count rack.new node) (R.held rack.old node) (R.held rack.new node)) }

    ensures out { IfOk result (λ n. MayReturn (λ n. R.Disk.count (N.disk_of n)) (R.can_put rack.new) node n) }
    ensures back { OnErr result (R.can_take rack.new node) }
    ensures fault { IfErr result (IsOpening node (R.count rack.old node) (R.count rack.new node)) }
    ensures others { KeepsOthers R.Rack node (node + 1) rack.old rack.new }
{
    let disk = match rack.take(node) {
        Ok(disk) => disk,
        Err(_) => return Err(Answer::DiskFault(node)),
    };
    match N::open_disk(alloc, node, ledger, disk) {
        Ok(opened) => Ok(opened),
        Err((disk, fault)) => {
            rack.put(node, disk);
            Err(fault)
        }
    }
}

/// Opens the nodes from a place on, behind those that are open already. After a fault the disks of all these nodes are back.
pub fn open_all<R: Rack, N: OnDisk<R::Disk>>(
    alloc: Global,
    rack: &mut R,
    ledger: Option<&Header>,
    first: u32,
    count: u32,
    nodes: Vec<N>,
) -> Result<Vec<N>, Answer>
    requires few { first + count < 2 ^ 32 }
    requires some { length nodes.items ≤ count }
    requires out { EachFrom
        (MayReturn (λ n. R.Disk.count (N.disk_of n)) (R.can_put rack.old)) first nodes.items }
    requires waiting { (n : ℕ) → first + length nodes.items ≤ n → n < first + count → R.can_take rack.old n }
    // Those that were open already come first, and each of the others is the node that was asked for and stands for what was told of its disk.
    ensures opened { IfOk result (λ v. ListGoesOn
        (λ n x. (N.fits n (option_copied ledger.entry) x × (R.count rack.old n ≤ R.Disk.count (N.disk_of x)))
        × OfTold (R.held rack.old n) (λ was. IsNodeOpened R.Disk.Disk N.disk_of N.opens was x))
        first nodes.items v.items) }

    // Why the first that can't be opened is not, and the disks are back.
    ensures refusal { IfErr result (FailsFirst
        (λ n x. (N.fits n (option_copied ledger.entry) x × (R.count rack.old n ≤ R.Disk.count (N.disk_of x)))
        × OfTold (R.held rack.old n) (λ was. IsNodeOpened R.Disk.Disk N.disk_of N.opens was x))
        (λ n e. (N.refusals e × IsOpening n (R.count rack.old n) (R.count rack.new n) e)
        × OfTold (R.held rack.old n) (λ was. Tells (R.Disk.content was) (λ c. N.refused n
        (option_copied ledger.entry) (R.Disk.limit was) c e))) (first + length nodes.items) (first + count)) }
    ensures closed { OnErr result
        (EachFrom (λ n x. OfTold (R.held rack.new n) (λ now. now ≡ N.disk_of x)) first nodes.items) }
    ensures held { OnErr result ((n : ℕ) → first + length nodes.items ≤ n → n < first + count → IsDiskBack
        R.Disk.Disk (R.count rack.old n) (R.count rack.new n) (R.held rack.old n) (R.held rack.new n)) }

    ensures all { IfOk result (λ v. length v.items ≡ count) }
    ensures out { IfOk result
        (λ v. EachFrom (MayReturn (λ n. R.Disk.count (N.disk_of n)) (R.can_put rack.new)) first v.items) }
    ensures back { OnErr result ((n : ℕ) → first ≤ n → n < first + count → R.can_take rack.new n) }
    ensures fault { IfErr result (IsOpeningIn first (first + count) (R.count rack.old) (R.count rack.new)) }
    ensures others { KeepsOthers R.Rack first (first + count) rack.old rack.new }
{
    let mut nodes = nodes;
    let from = nodes.len() as u32;
    'places: for place in from..count {
        match open_one(alloc, rack, NodeId(first + place), ledger) {
            Ok(node) => match nodes.push(node) {
                Ok(()) => {}
                Err(failed) => {
                    rack.put(NodeId(first + place), failed.value.give_disk());
                    close_all(rack, first, nodes);
                    return Err(Answer::Memory);
                }
            },
            Err(fault) => {
                close_all(rack, first, nodes);
                return Err(fault);
            }
        }
    }
    Ok(nodes)
}
