// The members of a group.
ghost use Rattle.std.specs.Prelude.{◌≡◌, ◌≢◌, true, false, ◌<◌, ◌++◌, ◌∷◌, [], take, slice_index_or, slice_set, length, IfOk, OnOk, OnErr};
ghost use Rattle.shard_replica.specs.Groups.{no_member, appended};

use cbdc_types::Record;
use std::alloc::AllocError;
use std::marker::Model;

/// A member: whether it is still in the group, its term, and its records, the oldest first.
#[derive(Drop)]
pub struct Member {
    pub inside: bool,
    pub term: u64,
    pub records: Vec<Record>,
}

impl Model for Member {
    ghost use Rattle.shard_replica.specs.Groups.{Member as OneMember};

    ghost Value = { OneMember };

    ghost view = { λ m. record { inside = m.inside; term = m.term; records = m.records.items } };
}

/// Whether the number is that of a member in the group.
pub(crate) fn is_inside(members: &[Member], b: u32) -> bool
    ensures { result ≡ (slice_index_or members.now b no_member).inside }
{
    match members.get(b as usize) {
        Some(own) => own.inside,
        None => false,
    }
}

/// A member's term, 0 where there is none.
pub(crate) fn term_at(members: &[Member], b: u32) -> u64
    ensures { result ≡ (slice_index_or members.now b no_member).term }
{
    match members.get(b as usize) {
        Some(own) => own.term,
        None => 0,
    }
}

/// A member's records, none where there is no such member.
pub(crate) fn records_at<'a>(members: &'a [Member], b: u32) -> &'a [Record]
    ensures { result.now ≡ (slice_index_or members.now b no_member).records }
{
    match members.get(b as usize) {
        Some(own) => own.records.as_slice(),
        None => &[],
    }
}

/// Puts a record behind a member's. Where memory runs out the members are as before.
pub(crate) fn put_behind(members: &mut [Member], b: u32, r: Record) -> Result<(), AllocError>
    requires { b < length members.old }
    ensures ok { OnOk result (members.new ≡ slice_set members.old b (record {
      inside = (slice_index_or members.old b no_member).inside;
      term = (slice_index_or members.old b no_member).term;
      records = (slice_index_or members.old b no_member).records ++ r ∷ [];
    })) }
    ensures err { OnErr result (members.new ≡ members.old) }
{
    let own = &mut members[b as usize];
    own.records.push(r)?;
    Ok(())
}

/// Puts a record behind a member's where its place is the end, and tells how many there are then. Where memory runs out the members are as before.
pub(crate) fn put_at(
    members: &mut [Member],
    b: u32,
    place: u64,
    r: Record,
) -> Result<u64, AllocError>
    requires { b < length members.old }
    ensures ok { OnOk result (members.new ≡ slice_set members.old b (record {
      inside = (slice_index_or members.old b no_member).inside;
      term = (slice_index_or members.old b no_member).term;
      records = appended (slice_index_or members.old b no_member).records place r;
    })) }
    ensures count { IfOk result
        (λ n. n ≡ length (appended (slice_index_or members.old b no_member).records place r)) }
    ensures err { OnErr result (members.new ≡ members.old) }
{
    if records_at(members, b).len() as u64 == place {
        put_behind(members, b, r)?;
    }
    Ok(records_at(members, b).len() as u64)
}

/// Takes a term: a member's records are cut to so many, and a record is put behind. Where memory runs out the members are as before.
pub(crate) fn follow(
    members: &mut [Member],
    b: u32,
    term: u64,
    place: u64,
    r: Record,
) -> Result<(), AllocError>
    requires { b < length members.old }
    ensures ok { OnOk result (members.new ≡ slice_set members.old b (record {
      inside = (slice_index_or members.old b no_member).inside;
      term = term;
      records = take place (slice_index_or members.old b no_member).records ++ r ∷ [];
    })) }
    ensures err { OnErr result (members.new ≡ members.old) }
{
    let own = &mut members[b as usize];
    own.records.reserve(1)?;
    own.records.truncate(place as usize);
    own.records.push_reserved(r);
    own.term = term;
    Ok(())
}

// Has a member leave.
fn leave(members: &mut [Member], b: u32)
    requires { b < length members.old }
    ensures { members.new ≡ slice_set members.old b (record {
      inside = false;
      term = (slice_index_or members.old b no_member).term;
      records = (slice_index_or members.old b no_member).records;
    }) }
{
    let own = &mut members[b as usize];
    own.inside = false;
}

// Has a member lead in a term.
fn lead(members: &mut [Member], b: u32, term: u64)
    requires { b < length members.old }
    ensures { members.new ≡ slice_set members.old b (record {
      inside = true;
      term = term;
      records = (slice_index_or members.old b no_member).records;
    }) }
{
    let own = &mut members[b as usize];
    own.inside = true;
    own.term = term;
}

/// Has the primary leave, and another one lead in a term.
pub(crate) fn hand_over(members: &mut [Member], primary: u32, b: u32, term: u64)
    requires primary { primary < length members.old }
    requires other { (b < length members.old) × (b ≢ primary) }
    ensures { members.new ≡ slice_set (slice_set members.old primary (record {
      inside = false;
      term = (slice_index_or members.old primary no_member).term;
      records = (slice_index_or members.old primary no_member).records;
    })) b (record {
      inside = true;
      term = term;
      records = (slice_index_or members.old b no_member).records;
    }) }
{
    leave(members, primary);
    lead(members, b, term);
}
