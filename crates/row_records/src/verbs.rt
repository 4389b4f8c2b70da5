// Steps by their first words.
use crate::script::Block;
use crate::told::Told;

/// What the first word of a step says that it does, by a table of such words, each with how many words its step may have, itself counted. What stands
/// behind a step is a text at most.
pub fn verb_in<V: Copy + Drop>(
    verbs: &[(&str, V, usize)],
    words: &[&str],
    block: &Block,
    told: &mut Told,
) -> Option<V> {
    let own = told.word_at(words, 0);
    for (name, verb, most) in verbs {
        if *name == own {
            told.at_most(words, *most);
            return if is_text(block) {
                Some(*verb)
            } else {
                told.refuse("what stands behind it is not for this step");
                None
            };
        }
    }
    told.refuse("no such step");
    None
}

// Whether a text alone, or nothing, stands behind a step.
fn is_text(block: &Block) -> bool {
    !block.is_any && !block.is_any_status && block.status == 0
}
