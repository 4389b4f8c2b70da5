// A group.
ghost use Rattle.std.specs.Prelude.{◌≡◌, ◌↔◌, ◌+◌, ◌-◌, ◌&&◌, ◌==◌, not, slice_get, slice_index_or, true, ◌<◌, ◌≤◌, ◌^◌, ◌++◌, ◌∷◌, [], ℕ, List as Items, length, map, reverse, replicate, take, IsTrue, IfOk, OnOk, OnErr};
ghost use Rattle.cbdc_model.specs.After.{After};
ghost use Rattle.plain_check.specs.Events.{event_in};
ghost use Rattle.shard_replica.specs.Groups.{begun, held, member_at, appended, are_told as are_all_told, no_member, promoted, is_backup as is_one_backup, is_told as is_all_told, known_of, hello, hellos as all_hellos, led_hellos};
ghost use Rattle.shard_replica.specs.Steps.{IsReceived, copied, came, Step, Run};
ghost use Rattle.shard_replica.specs.Worlds.{world_events as events_of};

use crate::members::{
    Member, follow, hand_over, is_inside, put_at, put_behind, records_at, term_at,
};
use cbdc_types::{Header, NodeId, Record};
use plain_check::{Event, copy_of_record, copy_of_records, is_after};
use shard_replica::{GroupEvent, Packet};
use std::alloc::{AllocError, Global};
use std::marker::Model;

/// A group: a primary and backups that hold one node's journal.
#[derive(Drop)]
pub struct Group {
    pub(crate) header: Header,
    pub(crate) members: Vec<Member>,
    pub(crate) primary: u32,
    pub(crate) term: u64,
    pub(crate) sent: Vec<Packet>,
    pub(crate) known: Vec<u64>,
    pub(crate) answered: u64,
    pub(crate) flying: bool,
}

impl Model for Group {
    ghost use Rattle.shard_replica.specs.Groups.{Group as OneGroup};
    ghost use Rattle.std.specs.Prelude.{length};
    ghost use Rattle.replica_group.specs.Sizes.{IsSmall};

    ghost Value = { OneGroup };

    ghost view = { λ g. record {
      header = g.header;
      members = g.members.items;
      primary = g.primary;
      term = g.term;
      sent = g.sent.items;
      known = g.known.items;
      answered = g.answered;
      flying = g.flying;
    } };

    ghost invariant = { λ g. IsSmall g.primary g.term g.members.items (length g.known.items) };
}

// Records, the newest first.
fn newest_first(alloc: Global, records: &[Record]) -> Result<Vec<Record>, AllocError>
    ensures { IfOk result (λ past. past.items ≡ reverse records.now) }
{
    let mut past = copy_of_records(alloc, records)?.into_vec();
    past.reverse();
    Ok(past)
}

// Whether a record may come next behind others, the oldest first.
fn is_next(alloc: Global, h: &Header, records: &[Record], r: &Record) -> Result<bool, AllocError>
    ensures { IfOk result (λ yes. IsTrue yes ↔ After h.now (reverse records.now) r.now) }
{
    let past = newest_first(alloc, records)?;
    is_after(alloc, h, &past, r)
}

fn copy_of_packet(p: &Packet) -> Result<Packet, AllocError>
    ensures { IfOk result (λ q. q ≡ p.now) }
{
    match p {
        Packet::Copy {
            to,
            term,
            place,
            record,
        } => {
            let record = copy_of_record(record)?;
            Ok(Packet::Copy {
                to: *to,
                term: *term,
                place: *place,
                record,
            })
        }
        Packet::Hello {
            to,
            term,
            place,
            record,
        } => {
            let record = copy_of_record(record)?;
            Ok(Packet::Hello {
                to: *to,
                term: *term,
                place: *place,
                record,
            })
        }
        Packet::Ack {
            sender,
            term,
            count,
        } => Ok(Packet::Ack {
            sender: *sender,
            term: *term,
            count: *count,
        }),
    }
}

// A copy of the last of records, if there is one.
fn last_of(records: &[Record]) -> Result<Option<Record>, AllocError>
    ensures { IfOk result (λ o. o ≡ slice_get records.now (length records.now - 1)) }
{
    match records.last() {
        Some(last) => Ok(Some(copy_of_record(last)?)),
        None => Ok(None),
    }
}

// Puts a new primary's word to a member behind others, where it has a last record.
fn put_hello(
    out: &mut Vec<Packet>,
    to: u32,
    term: u64,
    place: u64,
    last: &Option<Record>,
) -> Result<(), AllocError>
    ensures { OnOk result (out.new.items ≡ out.old.items ++ hello to term place last.now) }
{
    if let Some(found) = last {
        let record = copy_of_record(found)?;
        out.push(Packet::Hello {
            to,
            term,
            place,
            record,
        })?;
    }
    Ok(())
}

// A member as a group begins.
fn first_member(alloc: Global, records: &[Record]) -> Result<Member, AllocError>
    ensures { IfOk result (λ m. m ≡ record { inside = true; term = 1; records = records.now }) }
{
    Ok(Member {
        inside: true,
        term: 1,
        records: copy_of_records(alloc, records)?.into_vec(),
    })
}

// So many members as a group begins.
fn first_members(alloc: Global, records: &[Record], count: u32) -> Result<Vec<Member>, AllocError>
    ensures { IfOk result (λ v. v.items
        ≡ replicate count (record { inside = true; term = 1; records = records.now })) }
{
    let mut members = Vec::with_capacity(alloc, count as usize)?;
    'members: for b in 0..count {
        let member = first_member(alloc, records)?;
        members.push(member)?;
    }
    Ok(members)
}

// So many zeroes.
fn zeroes(alloc: Global, count: u32) -> Result<Vec<u64>, AllocError>
    ensures { IfOk result (λ v. v.items ≡ replicate count 0) }
{
    let mut all = Vec::with_capacity(alloc, count as usize)?;
    'members: for b in 0..count {
        all.push(0)?;
    }
    Ok(all)
}

impl Group {
    /// A group at its beginning: a primary and so many backups, all with these records, which are answered.
    pub fn new(
        alloc: Global,
        header: &Header,
        records: &[Record],
        backups: u32,
    ) -> Result<Group, AllocError>
        requires { backups ≤ 3 }
        ensures { IfOk result (λ g. g ≡ begun header.now records.now backups) }
    {
        Ok(Group {
            header: *header,
            members: first_members(alloc, records, backups + 1)?,
            primary: 0,
            term: 1,
            sent: Vec::new(alloc),
            known: zeroes(alloc, backups + 1)?,
            answered: records.len() as u64,
            flying: false,
        })
    }

    /// The primary's records, the oldest first.
    pub fn records(&self) -> &[Record]
        ensures { result.now ≡ held self.now }
    {
        records_at(&self.members, self.primary)
    }

    /// The members by their numbers, those that left too.
    pub fn members(&self) -> &[Member]
        ensures { result.now ≡ self.now.members }
    {
        self.members.as_slice()
    }

    /// Which member is the primary.
    pub fn primary(&self) -> u32
        ensures { result ≡ self.now.primary }
    {
        self.primary
    }

    /// How many of the primary's records are answered.
    pub fn answered(&self) -> u64
        ensures { result ≡ self.now.answered }
    {
        self.answered
    }

    /// Whether the primary's last record is in flight.
    pub fn is_flying(&self) -> bool
        ensures { result ≡ self.now.flying }
    {
        self.flying
    }

    /// Every packet that was ever sent, by its number.
    pub fn sent(&self) -> &[Packet]
        ensures { result.now ≡ self.now.sent }
    {
        self.sent.as_slice()
    }

    // Whether the number is that of a backup.
    pub(crate) fn is_backup(&self, b: u32) -> bool
        ensures { result ≡ is_one_backup self.now b }
    {
        is_inside(&self.members, b) && !(b == self.primary)
    }

    // How many records the primary knows a member to hold.
    fn known_at(&self, b: u32) -> u64
        ensures { result ≡ known_of self.now b }
    {
        match self.known.get(b as usize) {
            Some(count) => *count,
            None => 0,
        }
    }

    // Whether each backup below n is known to hold so many records.
    fn are_told(&self, count: u64, n: u32) -> bool
        ensures { result ≡ are_all_told self.now count n }
    {
        if n == 0 {
            return true;
        }
        let b = n - 1;
        self.are_told(count, b) && (!self.is_backup(b) || self.known_at(b) == count)
    }

    // Whether the primary knows that each backup holds as many records as it does.
    pub(crate) fn is_told(&self) -> bool
        ensures { result ≡ is_all_told self.now }
    {
        self.are_told(self.records().len() as u64, self.members.len() as u32)
    }

    // The primary takes a record.
    fn take(&mut self, alloc: Global, r: &Record) -> Result<(), AllocError>
        ensures ok { OnOk result (Step self.old (GroupEvent.Take r.now) self.new) }
        ensures err { OnErr result (self.new ≡ self.old) }
    {
        if self.records().len() as u64 != self.answered {
            return Ok(());
        }
        if !is_next(
            alloc,
            &self.header,
            records_at(&self.members, self.primary),
            r,
        )? {
            return Ok(());
        }
        let added = copy_of_record(r)?;
        put_behind(&mut self.members, self.primary, added)?;
        self.flying = true;
        Ok(())
    }

    // The primary's record at a place is sent to a member.
    fn send(&mut self, to: u32, place: u64) -> Result<(), AllocError>
        ensures ok { OnOk result (Step self.old (GroupEvent.Send to place) self.new) }
        ensures err { OnErr result (self.new ≡ self.old) }
    {
        let record = match self.records().get(place as usize) {
            Some(found) => copy_of_record(found)?,
            None => return Ok(()),
        };
        let term = self.term;
        self.sent.push(Packet::Copy {
            to,
            term,
            place,
            record,
        })?;
        Ok(())
    }

    // A Copy comes to a member of its term.
    fn take_copy(&mut self, to: u32, place: u64, r: Record) -> Result<(), AllocError>
        requires { to < length self.old.members }
        ensures ok { OnOk result (self.new
            ≡ copied self.old to (appended (member_at self.old to).records place r)) }
        ensures err { OnErr result (self.new ≡ self.old) }
    {
        self.sent.reserve(1)?;
        let term = term_at(&self.members, to);
        let count = put_at(&mut self.members, to, place, r)?;
        self.sent.push_reserved(Packet::Ack {
            sender: to,
            term,
            count,
        });
        Ok(())
    }

    // A Hello comes to a member.
    fn take_hello(&mut self, to: u32, term: u64, place: u64, r: Record) -> Result<(), AllocError>
        requires { to < length self.old.members }
        ensures ok { OnOk result (self.new ≡ came self.old (Packet.Hello to term place r)) }
        ensures err { OnErr result (self.new ≡ self.old) }
    {
        if term_at(&self.members, to) >= term {
            return Ok(());
        }
        follow(&mut self.members, to, term, place, r)?;
        Ok(())
    }

    // An Ack comes.
    fn take_ack(&mut self, sender: u32, term: u64, count: u64)
        ensures { self.new ≡ came self.old (Packet.Ack sender term count) }
    {
        if term == self.term && (sender as usize) < self.known.len() {
            let known = self.known[sender as usize];
            self.known[sender as usize] = known.max(count);
        }
    }

    // A packet comes to a member in the group.
    fn come(&mut self, packet: Packet) -> Result<(), AllocError>
        requires { IsReceived self.old packet }
        ensures ok { OnOk result (self.new ≡ came self.old packet) }
        ensures err { OnErr result (self.new ≡ self.old) }
    {
        match packet {
            Packet::Copy {
                to,
                term,
                place,
                record,
            } => {
                if term_at(&self.members, to) != term {
                    return Ok(());
                }
                self.take_copy(to, place, record)
            }
            Packet::Hello {
                to,
                term,
                place,
                record,
            } => { self.take_hello(to, term, place, record) }
            Packet::Ack {
                sender,
                term,
                count,
            } => {
                self.take_ack(sender, term, count);
                Ok(())
            }
        }
    }

    // Whether the packet's receiver is in the group.
    fn is_received(&self, packet: &Packet) -> bool
        ensures { IsTrue result ↔ IsReceived self.now packet.now }
    {
        match packet {
            Packet::Copy { to, .. } => is_inside(&self.members, *to),
            Packet::Hello { to, .. } => is_inside(&self.members, *to),
            Packet::Ack { .. } => true,
        }
    }

    // A packet comes, by its number.
    fn deliver(&mut self, which: u64) -> Result<(), AllocError>
        ensures ok { OnOk result (Step self.old (GroupEvent.Deliver which) self.new) }
        ensures err { OnErr result (self.new ≡ self.old) }
    {
        let packet = match self.sent.get(which as usize) {
            Some(found) => copy_of_packet(found)?,
            None => return Ok(()),
        };
        if !self.is_received(&packet) {
            return Ok(());
        }
        self.come(packet)
    }

    // The primary's records are answered.
    fn answer(&mut self)
        ensures { Step self.old GroupEvent.Answer self.new }
    {
        if self.is_told() {
            self.answered = self.records().len() as u64;
            self.flying = false;
        }
    }

    // Whether a new primary sends its word to a member.
    fn is_greeted(&self, b: u32, n: u32) -> bool
        ensures { result
            ≡ ((slice_index_or (promoted self.now b) n no_member).inside && not (n == b)) }
    {
        is_inside(&self.members, n) && n != self.primary && n != b
    }

    // The words of a new primary in a term, of its last record at a place, to the others.
    fn hellos_of(
        &self,
        alloc: Global,
        b: u32,
        term: u64,
        place: u64,
        last: &Option<Record>,
    ) -> Result<Vec<Packet>, AllocError>
        ensures { IfOk result (λ v. v.items
            ≡ all_hellos (promoted self.now b) b term place last.now (length self.now.members)) }
    {
        let mut all = Vec::new(alloc);
        'members: for n in 0..self.members.len() as u32 {
            if self.is_greeted(b, n) {
                put_hello(&mut all, n, term, place, last)?;
            }
        }
        Ok(all)
    }

    // The words of a new primary to the others.
    fn hellos(&self, alloc: Global, b: u32) -> Result<Vec<Packet>, AllocError>
        ensures { IfOk result (λ v. v.items ≡ led_hellos self.now b) }
    {
        let own = records_at(&self.members, b);
        let last = last_of(own)?;
        let place = (own.len() as u64).saturating_sub(1);
        self.hellos_of(alloc, b, self.term + 1, place, &last)
    }

    // A backup of the group's term is made the primary.
    fn promote(&mut self, alloc: Global, b: u32) -> Result<(), AllocError>
        ensures ok { OnOk result (Step self.old (GroupEvent.Promote b) self.new) }
        ensures err { OnErr result (self.new ≡ self.old) }
    {
        if !self.is_backup(b) || term_at(&self.members, b) != self.term {
            return Ok(());
        }
        let mut words = self.hellos(alloc, b)?;
        let known = zeroes(alloc, self.known.len() as u32)?;
        self.sent.append(&mut words)?;
        let before = self.primary;
        let term = self.term + 1;
        self.primary = b;
        self.term = term;
        self.known = known;
        self.flying = false;
        hand_over(&mut self.members, before, b, term);
        Ok(())
    }

    /// An event happens: where it isn't allowed, and where memory runs out, the group is as before.
    pub fn step(&mut self, alloc: Global, event: &GroupEvent) -> Result<(), AllocError>
        ensures ok { OnOk result (Step self.old event.now self.new) }
        ensures err { OnErr result (self.new ≡ self.old) }
    {
        match event {
            GroupEvent::Take(r) => self.take(alloc, r),
            GroupEvent::Send { to, place } => self.send(*to, *place),
            GroupEvent::Deliver(which) => self.deliver(*which),
            GroupEvent::Answer => {
                self.answer();
                Ok(())
            }
            GroupEvent::Promote(b) => self.promote(alloc, *b),
        }
    }

    /// Events in turn. Where memory runs out the group is the one after the first of them.
    pub fn run(&mut self, alloc: Global, events: &[GroupEvent]) -> Result<(), AllocError>
        ensures ok { OnOk result (Run self.old events.now self.new) }
        ensures err { OnErr result ((n : ℕ) × Run self.old (take n events.now) self.new) }
    {
        'events: for event in events {
            self.step(alloc, event)?;
        }
        Ok(())
    }
}
