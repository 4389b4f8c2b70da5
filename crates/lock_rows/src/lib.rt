//! Rows on the lock round a node, which need threads: what lanes that run beside each other leave, what a look tells, and where calls wait; on a
//! sentinel ahead of a lane; and on the calls of a phase, made at once.
//! A row whose name begins with `differs` does not hold. The program `part_rows` runs them, ahead of its files.
#![tactic(auto)]

mod book;
mod feeding;
mod frozen;
mod gates;
mod lanes;
mod opening;
mod phases;
mod rows;
mod sending;
mod shards;

use std::alloc::Global;
use std::io;
use std::sync::Wait;
use std::thread::Threads;

/// The rows that were told.
#[derive(Clone, Copy)]
struct Tally {
    /// How many.
    told: u32,
    /// How many came to what they should, and were printed.
    held: u32,
}

impl Tally {
    // Prints whether a row comes to what it should, and counts it.
    fn tell<R: Print>(&mut self, rt: &R, row: &str, held: Option<bool>) {
        self.told = self.told.saturating_add(1);
        let should_hold = !row.starts_with("differs ");
        let is_so = held == Some(should_hold);
        let word = if is_so { "ok" } else { "NOT" };
        if println!(rt; "{word} {row}").is_ok() && is_so {
            self.held = self.held.saturating_add(1);
        }
    }
}

// The lock round a node.
fn tell_locks<R: Print + Threads + Wait + Sync>(rt: &R, alloc: Global, tally: &mut Tally) {
    tally.tell(
        rt,
        "row two lanes on a thread each make 100 calls: 201 records, 100 of each lane, each in its order",
        rows::two_threads(rt, alloc),
    );
    tally.tell(
        rt,
        "row a lane that wrote looks and sees what it wrote, and so does one that only looks",
        rows::looks(rt, alloc),
    );
    tally.tell(
        rt,
        "row each of two lanes waits before its call until the other has made its own",
        rows::beside_each_other(rt, alloc),
    );
    tally.tell(
        rt,
        "row a lane waits for its turn while another keeps the node for long",
        rows::waits(rt, alloc),
    );
    tally.tell(
        rt,
        "row while a lane has the node another that waits for it does not pass the gate inside it",
        rows::keeps_out(rt, alloc),
    );
    tally.tell(
        rt,
        "row a call passes the gate before it has the node, while it has it, and after",
        rows::three_points(rt, alloc),
    );
}

// A shard behind its lock.
fn tell_shards<R: Print + Threads + Wait + Sync>(rt: &R, alloc: Global, tally: &mut Tally) {
    tally.tell(
        rt,
        "row a lane that made a Finish looks and sees the output unspent, and so does another then; before the Finish it is absent",
        shards::shows_output(rt, alloc, true),
    );
    tally.tell(
        rt,
        "differs a Finish that commits nothing makes an output",
        shards::shows_output(rt, alloc, false),
    );
    tally.tell(
        rt,
        "row two lanes at a shard that stands on no disk and takes no batch: a Lock and a Finish are not done, and both lanes look and see the output absent",
        shards::takes_none(rt, alloc),
    );
}

// A sentinel ahead of a lane.
fn tell_sentinels<R: Print + Threads + Wait + Sync>(rt: &R, alloc: Global, tally: &mut Tally) {
    tally.tell(
        rt,
        "row a sentinel ahead of a lane sends three messages for three submissions, in their order, the second with its refusal, and then no more",
        feeding::sends_three(rt, alloc),
    );
    tally.tell(
        rt,
        "row the sentinels ahead of two lanes send those of three submissions that go to their lane: the first and the third, and the second",
        feeding::send_their_own(rt, alloc),
    );
    tally.tell(
        rt,
        "row the sentinels ahead of two lanes, on one thread, send three submissions a message of each lane in turn",
        feeding::take_turns(rt, alloc),
    );
    tally.tell(
        rt,
        "row a lane whose sentinel sends, one whose sentinel was dropped before its first message and one that has none get the same transactions",
        feeding::has_the_same(rt, alloc),
    );
    tally.tell(
        rt,
        "row sixty-seven submissions of the second of two lanes, in batches of sixteen, come from its sentinel in four messages of sixteen and one of three, in their order, and then no more",
        sending::come_in_messages(rt, alloc),
    );
    tally.tell(
        rt,
        "row a lane asks for no verdict anew on sixty-seven submissions that its sentinel sent, or that were checked before by all processors",
        sending::asks_none_anew(rt, alloc),
    );
    tally.tell(
        rt,
        "row the sentinel of a lane that has let go of it ends at its first message, and passes its gate three times for three where the lane has not",
        feeding::ends_with_its_lane(rt, alloc),
    );
}

// The calls of a phase.
fn tell_phases<R: Print + Threads + Wait + Sync>(rt: &R, alloc: Global, tally: &mut Tally) {
    tally.tell(
        rt,
        "row three lock calls at once, the second at a shard without room and the third at one without the coin: held, full, missing, in the order of the shards, and the first and third have a Lock",
        phases::second_is_full(rt, alloc),
    );
    tally.tell(
        rt,
        "row a phase of no call: nothing is answered, and no shard has a record more",
        phases::asks_none(rt, alloc),
    );
}

/// Tells each row with what it came to, and how many came to what they should. The answer is whether all did.
pub fn tell_rows<R: AllocGlobal + Print + Threads + Wait + Sync>(rt: &R) -> io::Result<bool> {
    let alloc = rt.alloc();
    let mut tally = Tally { told: 0, held: 0 };
    tell_locks(rt, alloc, &mut tally);
    tell_shards(rt, alloc, &mut tally);
    tell_sentinels(rt, alloc, &mut tally);
    tell_phases(rt, alloc, &mut tally);
    println!(rt;
        "{} of {} rows came to what they should",
        tally.held, tally.told
    )?;
    Ok(tally.held == tally.told)
}
