// What a client file sends to a lane.
ghost use Rattle.std.specs.Prelude.{◌≡◌, ◌+◌, ◌*◌, ◌<◌, ◌≤◌, ◌++◌, [], length, IfOk, IfErr, OnOk};
ghost use Rattle.cbdc_model.specs.Coins.{FullTx as Full, tx_id as spec_id};
ghost use Rattle.sentinel.specs.FirstRefusal.{IsSoundTx, IsFirstRefusal};
ghost use Rattle.submissions.specs.Checks.{IsSaid, IsRuled};
ghost use Rattle.lane_sources.specs.Sources.{count_of_lanes, all_for_lane, left_at, LeavesBehind, SubmissionAt};

use crate::ahead::Ahead;
use crate::file::{Deals, FileOf};
use crate::ruled::{RuledAt, found_or_now};
use cbdc_types::{CompactTx, Hash, Refusal};
use lane_driver::Source;
use sentinel::Verifier;
use std::alloc::{AllocError, Global};
use std::marker::Model;
use std::sync::Wait;
use submissions::{Checked, Judged, Judgement, Ruled, Ruling, judge};

/// What a file sends to a lane: the submission at place j goes to lane j modulo the number of lanes, and the compact forms of the sound
/// ones are sent. Each is checked when the lane comes to it, unless what a sentinel makes of it was found ahead, and what is said of it is
/// kept.
#[derive(Drop)]
pub struct LaneSource<'a, W: Wait, V: Verifier, F: Deals> {
    rt: &'a W,
    file: &'a FileOf<'a, V, F>,
    lane: usize,
    at: usize,
    sent: usize,
    checked: Vec<Checked>,
    piece: Vec<CompactTx>,
    ahead: Ahead<F>,
    found: Vec<RuledAt<F>>,
}

impl<'a, W: Wait, V: Verifier, F: Deals> Model for LaneSource<'a, W, V, F> {
    ghost use Rattle.lane_sources.specs.Sources.{SourceOf, IsSource};

    ghost Value = { SourceOf };

    ghost view = { λ s. record { lane = s.lane; at = s.at; given = s.piece.items; checked = s.checked.items } };

    ghost invariant = { λ s. IsSource F.shape F.verdicts F.file s.lane s.at s.sent s.checked };
}

impl<'a, W: Wait, V: Verifier, F: Deals> LaneSource<'a, W, V, F> {
    /// The source of a lane, or memory ran out. What is found ahead of the lane is not sought again.
    pub fn new(
        rt: &'a W,
        alloc: Global,
        file: &'a FileOf<'a, V, F>,
        lane: usize,
        ahead: Ahead<F>,
    ) -> Result<LaneSource<'a, W, V, F>, AllocError>
        requires { lane < file.now }
        ensures { IfOk result (λ s. s.lane ≡ lane) }
    {
        let room = file.txs().len().div_ceil(file.lanes());
        Ok(LaneSource {
            rt,
            file,
            lane,
            at: lane,
            sent: 0,
            checked: Vec::with_capacity(alloc, room)?,
            piece: Vec::new(alloc),
            ahead,
            found: Vec::new(alloc),
        })
    }

    // Keeps that the next submission is sound, and goes to the one behind it.
    fn note_sound(&mut self, id: Hash)
        requires inside { self.old.at < length F.file }
        requires sound { SubmissionAt F.file self.old.at (λ t. (id ≡ spec_id t)
            × IsSoundTx t (F.verdicts (spec_id t))) }
        ensures lane { self.new.lane ≡ self.old.lane }
        ensures at { self.new.at ≡ self.old.at + count_of_lanes F.shape }
        ensures given { self.new.given ≡ self.old.given }
    {
        let file = self.file;
        let lanes = file.lanes();
        let judgement = Judgement::Sound {
            lane: self.lane,
            place: self.sent,
        };
        self.checked.push_reserved(Checked { id, judgement });
        self.sent += 1;
        self.at += lanes;
    }

    // Keeps why it is refused, and goes to the one behind it.
    fn note_refused(&mut self, id: Hash, refusal: Refusal)
        requires inside { self.old.at < length F.file }
        requires refused { SubmissionAt F.file self.old.at (λ t. (id ≡ spec_id t)
            × IsFirstRefusal t (F.verdicts (spec_id t)) refusal) }
        ensures lane { self.new.lane ≡ self.old.lane }
        ensures at { self.new.at ≡ self.old.at + count_of_lanes F.shape }
        ensures given { self.new.given ≡ self.old.given }
    {
        let file = self.file;
        let lanes = file.lanes();
        let judgement = Judgement::Refused(refusal);
        self.checked.push_reserved(Checked { id, judgement });
        self.at += lanes;
    }

    // The next ruling of those that are found ahead. It waits for one that is still to be sent.
    fn next_found(&mut self) -> Option<RuledAt<F>>
        ensures { self.new ≡ self.old }
    {
        if self.found.is_empty() {
            self.found = self.ahead.next(self.rt)?;
        }
        self.found.pop()
    }

    // What a sentinel makes of the next submission, found ahead or now.
    fn rule_next(&mut self, alloc: Global) -> Result<Ruled, AllocError>
        requires { self.old.at < length F.file }
        ensures same { self.new ≡ self.old }
        ensures ruled { IfOk result (λ r. SubmissionAt F.file self.old.at (λ t. IsRuled F.verdicts t r)) }
        ensures left { IfOk result
            (λ r. LeavesBehind F.shape F.verdicts F.file self.old.lane self.old.at r.ruling) }
        ensures some { IfErr result
            (λ _. 0 < length (left_at F.shape F.verdicts F.file self.old.lane self.old.at)) }
    {
        let found = self.next_found();
        let file = self.file;
        found_or_now(alloc, file, self.at, found)
    }

    // Checks the next submission. Its compact form, where it is sound, goes to the end of the piece.
    fn take_next(&mut self, alloc: Global) -> Result<(), AllocError>
        requires { self.old.at < length F.file }
        ensures lane { self.new.lane ≡ self.old.lane }
        ensures at { OnOk result (self.new.at ≡ self.old.at + count_of_lanes F.shape) }
        ensures given { OnOk result (self.new.given ++ left_at F.shape F.verdicts F.file self.old.lane
            self.new.at ≡ self.old.given ++ left_at F.shape F.verdicts F.file self.old.lane self.old.at) }
        ensures one { OnOk result (length self.new.given ≤ length self.old.given + 1) }
        ensures left { IfErr result
            (λ _. 0 < length (left_at F.shape F.verdicts F.file self.old.lane self.old.at)) }
    {
        let Ruled { id, ruling } = self.rule_next(alloc)?;
        match ruling {
            Ruling::Sound(own) => {
                self.piece.push(own)?;
                self.note_sound(id);
            }
            Ruling::Refused(refusal) => self.note_refused(id, refusal),
        }
        Ok(())
    }

    // Checks the next submission, and keeps what is said of it alone.
    fn judge_next(&mut self)
        requires { self.old.at < length F.file }
        ensures lane { self.new.lane ≡ self.old.lane }
        ensures at { self.new.at ≡ self.old.at + count_of_lanes F.shape }
    {
        let file = self.file;
        let Judged { id, refusal } = judge(&file.txs()[self.at], file.verifier());
        match refusal {
            None => self.note_sound(id),
            Some(refusal) => self.note_refused(id, refusal),
        }
    }

    // Begins anew, for this lane.
    fn start(&mut self, lane: usize)
        requires { lane < count_of_lanes F.shape }
        ensures lane { self.new.lane ≡ lane }
        ensures at { self.new.at ≡ lane }
    {
        self.lane = lane;
        self.at = lane;
        self.sent = 0;
        self.checked.clear();
        self.piece.clear();
    }

    // How many submissions go to a lane at most.
    fn few(&self) -> usize
        ensures { length (all_for_lane F.shape F.verdicts F.file self.now.lane) ≤ result }
    {
        let file = self.file;
        let from_its_first = file.txs().len().saturating_sub(self.lane);
        from_its_first.div_ceil(file.lanes())
    }

    /// Comes to the end of the file, as the source of this lane: what is left to be said is said. It takes no memory.
    pub fn finish(&mut self, lane: usize)
        requires { lane < count_of_lanes F.shape }
        ensures lane { self.new.lane ≡ lane }
        ensures end { length F.file ≤ self.new.at }
    {
        let file = self.file;
        let end = file.txs().len();
        if self.lane != lane {
            self.start(lane);
        }
        'submissions: while self.at < end {
            self.judge_next();
        }
    }

    /// What was said of the lane's submission of this number, from 0.
    pub fn said(&self, index: usize) -> Checked
        requires { self.now.lane + count_of_lanes F.shape * index < self.now.at }
        ensures { SubmissionAt F.file (self.now.lane + count_of_lanes F.shape * index)
            (λ t. (result.id ≡ spec_id t) × IsSaid F.shape F.verdicts F.file
            (self.now.lane + count_of_lanes F.shape * index) t result.judgement) }
    {
        self.checked[index]
    }
}

impl<'a, W: Wait, V: Verifier, F: Deals> Source for LaneSource<'a, W, V, F> {
    ghost all = { λ s. all_for_lane F.shape F.verdicts F.file s.lane };

    ghost rest = { λ s. left_at F.shape F.verdicts F.file s.lane s.at };

    ghost given = { λ s. s.given };

    fn most(&self) -> usize {
        self.few()
    }

    fn begin(&mut self) -> usize {
        let lane = self.lane;
        self.start(lane);
        self.few()
    }

    fn advance(&mut self, alloc: Global, size: usize) -> Result<(), AllocError> {
        let file = self.file;
        let count = file.txs().len();
        self.piece.clear();
        'submissions: while self.piece.len() < size && self.at < count {
            self.take_next(alloc)?;
        }
        Ok(())
    }

    fn piece(&self) -> &[CompactTx] {
        self.piece.as_slice()
    }

    // It drops the receiving end of what a feeder sends, which then ends, and what was found.
    fn end_ahead(&mut self) {
        self.ahead = Ahead::Nothing;
        self.found.clear();
    }
}
