// Which words are options, which are values of their own, and where they stand.
ghost use Rattle.std.specs.Prelude.{◌≡◌, ◌+◌, ◌<◌, ◌≤◌, false, length, option_map, IfOk, IfSome, MatchOption, Some, None};
ghost use Rattle.clap.specs.Lexer.{long_of, name_and_value, strip_byte};
ghost use Rattle.command_line.specs.Places.{is_positional, is_trailing, lacks_value, names_option, option_at, option_place, positional_places};
ghost use Rattle.command_line.specs.Words.{texts};

use std::alloc::{AllocError, Global};

/// The first place behind the program's name and the command's.
const FIRST: usize = 2;

/// An option among the words.
#[derive(Clone, Copy)]
pub(crate) struct OptionWord<'a> {
    pub(crate) place: usize,
    /// What a `=` joins to it.
    pub(crate) value: Option<&'a str>,
}

// What follows a first dash.
fn behind_dash(word: &str) -> Option<&str>
    ensures { option_map (λ s. s.now) result ≡ strip_byte 45 word.now }
{
    word.strip_prefix('-')
}

// What stands before the first `=`, and what stands after it if there is one.
fn split_value(text: &str) -> (&str, Option<&str>)
    ensures { (result.0.now, option_map (λ s. s.now) result.1) ≡ name_and_value text.now }
{
    match text.split_once('=') {
        Some((name, value)) => (name, Some(value)),
        None => (text, None),
    }
}

// The option that a word is, unless it stands behind a `--`.
fn option_in(word: &str) -> Option<(&str, Option<&str>)>
    ensures { option_map (λ p. (p.0.now, option_map (λ s. s.now) p.1)) result ≡ long_of word.now }
{
    let rest = behind_dash(behind_dash(word)?)?;
    if rest.is_empty() {
        return None;
    }
    Some(split_value(rest))
}

// Whether the word behind this one is its value.
fn takes_next(word: &str) -> bool
    ensures { result ≡ lacks_value (long_of word.now) }
{
    match option_in(word) {
        Some((_, None)) => true,
        _ => false,
    }
}

// Whether the word at a place is a value of its own. A `--` may stand before it.
fn is_positional(words: &[String], trailing: bool, place: usize) -> bool
    requires behind { 2 ≤ place }
    requires inside { place < length words.now }
    requires trailing { trailing ≡ is_trailing (texts words.now) place }
    ensures { result ≡ is_positional (texts words.now) place }
{
    if trailing {
        return true;
    }
    let word = words[place].as_str();
    if word == "--" || option_in(word).is_some() {
        return false;
    }
    place == FIRST || !takes_next(words[place - 1].as_str())
}

// Whether a `--` stands at a place or before it.
fn is_trailing_behind(words: &[String], trailing: bool, place: usize) -> bool
    requires behind { 2 ≤ place }
    requires inside { place < length words.now }
    requires trailing { trailing ≡ is_trailing (texts words.now) place }
    ensures { result ≡ is_trailing (texts words.now) (place + 1) }
{
    trailing || words[place].as_str() == "--"
}

/// The places of the words that are no option, no option's value and not the first `--`.
pub(crate) fn positional_places(alloc: Global, words: &[String]) -> Result<Vec<usize>, AllocError>
    ensures { IfOk result (λ places. places.items ≡ positional_places (texts words.now)) }
{
    let mut places = Vec::new(alloc);
    let mut trailing = false;
    'words: for place in FIRST..words.len() {
        if is_positional(words, trailing, place) {
            places.push(place)?;
        }
        trailing = is_trailing_behind(words, trailing, place);
    }
    Ok(places)
}

// The option of a name at a place. A `--` may stand before it.
fn option_there<'a>(
    words: &'a [String],
    trailing: bool,
    place: usize,
    name: &str,
) -> Option<OptionWord<'a>>
    requires inside { place < length words.now }
    requires trailing { trailing ≡ is_trailing (texts words.now) place }
    ensures { MatchOption result (names_option name.now (texts words.entry.now) place ≡ false)
        (λ o. (o.place ≡ place)
        × (option_at (texts words.entry.now) place ≡ Some (name.now, option_map (λ s. s.now) o.value))) }
{
    if trailing {
        return None;
    }
    match option_in(words[place].as_str()) {
        Some((found, value)) if found == name => Some(OptionWord { place, value }),
        _ => None,
    }
}

/// The first option of a name.
pub(crate) fn option_of<'a>(words: &'a [String], name: &str) -> Option<OptionWord<'a>>
    ensures place { option_map (λ o. o.place) result ≡ option_place name.now (texts words.entry.now) }
    ensures value { IfSome result
        (λ o. option_at (texts words.entry.now) o.place ≡ Some (name.now, option_map (λ s. s.now) o.value)) }
{
    let mut trailing = false;
    'words: for place in FIRST..words.len() {
        let option = option_there(words, trailing, place, name);
        if option.is_some() {
            return option;
        }
        trailing = is_trailing_behind(words, trailing, place);
    }
    None
}
