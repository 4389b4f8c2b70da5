// What was said of all submissions of a file.
ghost use Rattle.std.specs.Prelude.{◌≡◌, ◌≤◌, [], length};
ghost use Rattle.std.specs.Vec.{vec_capacity};
ghost use Rattle.submissions.specs.Checks.{AreChecked};
ghost use Rattle.lane_sources.specs.Sources.{count_of_lanes, AreFinished};

use crate::file::{Deals, FileOf};
use crate::source::LaneSource;
use sentinel::Verifier;
use std::sync::Wait;
use submissions::Checked;

// Each source comes to the end of the file, the one at each place for the lane of that number.
fn finish_all<'a, W: Wait, V: Verifier, F: Deals>(sources: &mut [LaneSource<'a, W, V, F>])
    requires { length sources.old ≡ count_of_lanes F.shape }
    ensures count { length sources.new ≡ length sources.old }
    ensures end { AreFinished F.file sources.new }
{
    for lane in 0..sources.len() {
        sources[lane].finish(lane);
    }
}

/// Puts what the sources of a file's lanes said in the order of the file. A submission that its lane did not come to is checked now. It takes
/// no memory.
pub fn checks_of<'a, W: Wait, V: Verifier, F: Deals>(
    file: &FileOf<'a, V, F>,
    sources: &mut [LaneSource<'a, W, V, F>],
    checked: &mut Vec<Checked>,
)
    requires lanes { length sources.old ≡ count_of_lanes F.shape }
    requires empty { checked.old.items ≡ [] }
    requires room { length F.file ≤ vec_capacity checked.old }
    ensures { AreChecked F.shape F.verdicts F.file checked.new.items }
{
    finish_all(sources);
    let lanes = file.lanes();
    'places: for place in 0..file.txs().len() {
        checked.push_reserved(sources[place % lanes].said(place / lanes));
    }
}
