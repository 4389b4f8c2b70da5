// Where two lists first differ.
ghost use Rattle.std.specs.Prelude.{◌≡◌, ◌≤◌, ◌<◌, ◌^◌, suc, option_map, IfSome, length};
ghost use Rattle.cbdc_model.specs.Replies.{entries};
ghost use Rattle.cbdc_model.specs.Next.{difference, same_entry, same_decision, misfit};

use cbdc_types::{Answered, Entry};
use same_records::{is_held, is_same_entry};

/// The first place at which a Lock's entries and a part disagree, or the shorter length.
pub fn other_part(kept: &[Answered], part: &[Entry]) -> Option<u64>
    ensures place { result ≡ difference same_entry (entries kept.now) part.now }
    ensures within { IfSome result (λ n. n ≤ length part.now) }
{
    match (kept.split_first(), part.split_first()) {
        (None, None) => None,
        (Some((a, others)), Some((e, rest))) => {
            if is_same_entry(&a.entry, e) {
                next_place(other_part(others, rest))
            } else {
                Some(0)
            }
        }
        _ => Some(0),
    }
}

/// The first place at which two lists of decisions disagree, or the shorter length.
pub fn other_decisions(kept: &[bool], given: &[bool]) -> Option<u64>
    ensures place { result ≡ difference same_decision kept.now given.now }
    ensures within { IfSome result (λ n. n ≤ length given.now) }
{
    match (kept.split_first(), given.split_first()) {
        (None, None) => None,
        (Some((d, others)), Some((e, rest))) => {
            if *d == *e {
                next_place(other_decisions(others, rest))
            } else {
                Some(0)
            }
        }
        _ => Some(0),
    }
}

/// The first place at which decisions don't fit the replies: a commit at an entry that isn't Held, or the shorter length.
pub fn misfit(es: &[Answered], decisions: &[bool]) -> Option<u64>
    ensures place { result ≡ misfit es.now decisions.now }
    ensures within { IfSome result (λ n. n ≤ length decisions.now) }
{
    match (es.split_first(), decisions.split_first()) {
        (None, None) => None,
        (Some((a, others)), Some((d, rest))) => {
            if *d && !is_held(&a.reply) {
                Some(0)
            } else {
                next_place(misfit(others, rest))
            }
        }
        _ => Some(0),
    }
}

// The place one further.
fn next_place(at: Option<u64>) -> Option<u64>
    requires { IfSome at (λ n. n < 2 ^ 63) }
    ensures { result ≡ option_map (λ n. suc n) at }
{
    match at {
        Some(n) => Some(n + 1),
        None => None,
    }
}
