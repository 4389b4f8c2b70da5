// Devices that note what is asked of them, in order. What there is no memory for is left out.
ghost use Rattle.std.specs.Prelude.{◌≡◌};

use crate::ordering::PointOrder;
use cbdc_types::NodeId;
use mem_devices::MemInbox;
use outside::{Failed, Gate, Inbox, Point, Rack};
use row_records::Told;
use std::alloc::Global;
use std::sync::{Mutex, Wait};

/// A gate that notes the points of calls that are passed, and holds all points of an order to it.
#[derive(Drop)]
pub struct NotingGate {
    points: Mutex<Vec<Point>>,
    order: PointOrder,
    is_slow: bool,
}

impl NotingGate {
    /// Where it has an order it says that calls are slow, or not.
    pub fn new(alloc: Global, order: PointOrder, is_slow: bool) -> NotingGate {
        NotingGate {
            points: Mutex::new(Vec::new(alloc)),
            order,
            is_slow,
        }
    }

    /// Whether the order was kept.
    pub fn is_kept(&self) -> bool {
        self.order.is_kept()
    }

    /// The points of calls that were passed, those of a phase by their nodes.
    pub fn into_points(self, told: &mut Told) -> Vec<Point> {
        let NotingGate {
            points,
            order: _,
            is_slow: _,
        } = self;
        let points = points.into_inner();
        by_nodes(points.as_slice(), told)
    }
}

// Whether a point is of a call at a node. Those behind the messages of a sentinel ahead of a lane are not, and come whenever it gets on.
fn is_of_call(point: &Point) -> bool {
    point.kind != 0
}

// Whether two points are of calls of one phase.
fn is_of_phase(point: &Point, last: &Point) -> bool {
    point.lane == last.lane && point.kind == last.kind
}

// The points of each phase in the order of their nodes, since its calls may be made at once.
fn by_nodes(points: &[Point], told: &mut Told) -> Vec<Point> {
    let mut phased = numbered(points, told);
    told.made(phased.sort_by_key(|(phase, point)| (*phase, point.node.0)));
    let mut ordered = Vec::new(told.alloc);
    for (_, point) in &phased {
        told.push(&mut ordered, *point);
    }
    ordered
}

// Points, each with the number of its phase.
fn numbered(points: &[Point], told: &mut Told) -> Vec<(u64, Point)> {
    let mut numbered = Vec::new(told.alloc);
    let mut phase = 0u64;
    let mut last = None;
    for point in points {
        if last.is_some_and(|last| !is_of_phase(point, &last)) {
            phase = phase.wrapping_add(1);
        }
        told.push(&mut numbered, (phase, *point));
        last = Some(*point);
    }
    numbered
}

impl Gate for NotingGate {
    fn pass<W: Wait>(&self, rt: &W, point: &Point) {
        self.order.pass(point);
        if is_of_call(point) {
            let mut points = self.points.lock(rt);
            let _ = points.push(*point);
        }
    }

    // Calls that it holds up take long, unless it is to say otherwise.
    fn is_slow(&self) -> bool {
        self.is_slow && !self.order.is_empty()
    }
}

/// Files that note the names that are read from their beginning on.
#[derive(Drop)]
pub struct NotingInbox {
    pub files: MemInbox,
    pub names: Vec<String>,
    pub alloc: Global,
}

impl NotingInbox {
    fn note(&mut self, name: &str)
        ensures { self.new.files ≡ self.old.files }
    {
        if let Ok(name) = String::from_str(self.alloc, name) {
            let _ = self.names.push(name);
        }
    }
}

impl Inbox for NotingInbox {
    ghost file = { λ i. ⟦<MemInbox as Inbox>⟧.file i.files };

    ghost count = { λ i. ⟦<MemInbox as Inbox>⟧.count i.files };

    fn read(&mut self, name: &str, at: u64, buf: &mut [u8]) -> Result<usize, Failed> {
        if at == 0 {
            self.note(name);
        }
        self.files.read(name, at, buf)
    }
}

/// A rack that notes the nodes whose disks are taken.
#[derive(Drop)]
pub struct NotingRack<K: Rack> {
    pub disks: K,
    pub nodes: Vec<NodeId>,
}

impl<K: Rack> Rack for NotingRack<K> {
    type Disk = K::Disk;

    ghost held = { λ r. K.held r.disks };

    ghost count = { λ r. K.count r.disks };

    ghost can_take = { λ r. K.can_take r.disks };

    ghost can_put = { λ r. K.can_put r.disks };

    fn take(&mut self, node: NodeId) -> Result<K::Disk, Failed> {
        let _ = self.nodes.push(node);
        self.disks.take(node)
    }

    fn put(&mut self, node: NodeId, disk: K::Disk) {
        self.disks.put(node, disk);
    }
}
