// What the words ask for.
ghost use Rattle.std.specs.Prelude.{◌≡◌, ◌≤◌, [], codes, drop, length, map, IsTrue, IfSome, IfOk, IfErr, IsErrOf, IsOk, Some, None, Ok};
ghost use Rattle.hex.specs.Hex.{decode_of};
ghost use Rattle.clap.specs.Words.{all_of, fault_of, first_of, found_of, kind_of, rows_of, subcommand_of, subcommand_rows_of};
ghost use Rattle.command_line.specs.Asked.{WordsAskFor, AreWordsRefused, IsShow, HasMistake, HasWish, HasNumber, HasNoNumber, HasShape, HasNoShape, HasNoHashes, HasUpTo, HasNoUpTo, HasRepeats, HasNoRepeats, HasReplicas, HasNoReplicas, HasWatch, HasSeed, HasNoSeed, HasNoWorkload, NameCommand, is_mistake, is_wish, help_words, names_or_none};
ghost use Rattle.command_line.specs.Command.{hamilton};
ghost use Rattle.command_line.specs.Places.{positional_places};
ghost use Rattle.command_line.specs.Words.{AreFiles, IsFirstWord, IsGivenBy, StandsThere, texts};

use crate::matching::matches_of;
use crate::places::{option_of, positional_places};
use crate::values::{hash_in, number_in, up_to_in, whole_in};
use base_types::{Hash, Shape};
use clap::error::ErrorKind;
use clap::{ArgMatches, Error};
use requests::{FileWord, GenOptions, Request, RunOptions, WordsFault};
use std::alloc::Global;

// What a fault of the words answers: help and the version are texts to print.
fn answer_to<'a>(alloc: Global, error: &Error) -> Result<Request<'a>, WordsFault>
    ensures shows { IfOk result IsShow }
    ensures wish { IsOk result → IsTrue (is_wish (kind_of error.now)) }
    ensures refuses { IsErrOf result WordsFault.Bad → IsTrue (is_mistake (kind_of error.now)) }
{
    match error.kind() {
        ErrorKind::DisplayHelp | ErrorKind::DisplayVersion => match format!(in alloc; "{error}") {
            Ok(text) => Ok(Request::Show(text)),
            Err(_) => Err(WordsFault::Memory),
        },
        ErrorKind::OutOfMemory => Err(WordsFault::Memory),
        _ => Err(WordsFault::Bad),
    }
}

// The help that these words ask for.
fn help_by<'a, 'b>(alloc: Global, words: &'b [&'b str]) -> Result<Request<'a>, WordsFault>
    ensures shows { IfOk result IsShow }
    ensures wish { IsOk result → HasWish (fault_of hamilton (map (λ w. w.now) words.entry.now)) }
    ensures refuses { IsErrOf result WordsFault.Bad
        → HasMistake (fault_of hamilton (map (λ w. w.now) words.entry.now)) }
{
    match matches_of(alloc, words) {
        Ok(_) => Err(WordsFault::Memory),
        Err(error) => answer_to(alloc, &error),
    }
}

// The help on the program.
fn help_on_all<'a>(alloc: Global) -> Result<Request<'a>, WordsFault>
    ensures shows { IfOk result IsShow }
    ensures wish { IsOk result → HasWish (fault_of hamilton (help_words None)) }
    ensures refuses { IsErrOf result WordsFault.Bad → HasMistake (fault_of hamilton (help_words None)) }
{
    help_by(alloc, &["hamilton", "--help"])
}

// The help on a command.
fn help_on<'a>(alloc: Global, topic: &str) -> Result<Request<'a>, WordsFault>
    ensures shows { IfOk result IsShow }
    ensures wish { IsOk result → HasWish (fault_of hamilton (help_words (Some topic.now))) }
    ensures refuses { IsErrOf result WordsFault.Bad
        → HasMistake (fault_of hamilton (help_words (Some topic.now))) }
{
    help_by(alloc, &["hamilton", topic, "--help"])
}

// What the matches of `help` ask for.
#[tactic(auto, using(crate::proofs::Rows::rows))]
fn help_request<'a, 'b>(alloc: Global, inner: &ArgMatches<'b>) -> Result<Request<'a>, WordsFault>
    ensures shows { IfOk result IsShow }
    ensures wish { IsOk result → HasWish
        (fault_of hamilton (help_words (first_of (codes "command") (rows_of (found_of inner.now))))) }
    ensures refuses { IsErrOf result WordsFault.Bad → HasMistake
        (fault_of hamilton (help_words (first_of (codes "command") (rows_of (found_of inner.now))))) }
{
    match inner.get_str("command") {
        None => help_on_all(alloc),
        Some(topic) => help_on(alloc, topic),
    }
}

// What `help` asks for.
fn help_asked<'a, 'b>(
    alloc: Global,
    words: &'b [String],
    inner: &ArgMatches<'b>,
) -> Result<Request<'a>, WordsFault>
    requires { NameCommand (texts words.now) (codes "help") (rows_of (found_of inner.now)) }
    ensures asked { IfOk result (λ r. WordsAskFor (texts words.entry.now) r) }
    ensures refused { IfErr result (λ e. AreWordsRefused (texts words.entry.now) e) }
{
    help_request(alloc, inner)
}

// The number of an option, from 1 to a limit.
#[tactic(auto, using(crate::proofs::Rows::rows))]
fn number<'a>(inner: &ArgMatches<'a>, option: &str, most: u32) -> Result<u32, WordsFault>
    requires { most ≤ 10000 }
    ensures number { IfOk result (λ n. HasNumber (rows_of (found_of inner.now)) option.now most n) }
    ensures none { IsErrOf result WordsFault.Bad
        → HasNoNumber (rows_of (found_of inner.now)) option.now most }
{
    let Some(text) = inner.get_str(option) else {
        return Err(WordsFault::Memory);
    };
    match number_in(text, most) {
        Some(n) => Ok(n),
        None => Err(WordsFault::Bad),
    }
}

// The shape that the options of a command give.
fn shape_of<'a>(inner: &ArgMatches<'a>) -> Result<Shape, WordsFault>
    ensures shape { IfOk result (λ s. HasShape (rows_of (found_of inner.now)) s) }
    ensures none { IsErrOf result WordsFault.Bad → HasNoShape (rows_of (found_of inner.now)) }
{
    let shards = number(inner, "shards", 64)?;
    let coordinators = number(inner, "coordinators", 16)?;
    let lanes = number(inner, "lanes", 16)?;
    let batch = number(inner, "batch", 1024)?;
    match Shape::new(shards, coordinators, lanes, batch) {
        Ok(shape) => Ok(shape),
        Err(_) => Err(WordsFault::Memory),
    }
}

// The file that the word at a place names.
fn file_at<'a>(words: &'a [String], place: usize, name: &'a str) -> Option<FileWord<'a>>
    ensures there { IfSome result (λ f. StandsThere (texts words.entry.now) f) }
    ensures name { IfSome result (λ f. f.name.now ≡ name.entry.now) }
    ensures place { IfSome result (λ f. f.place ≡ place) }
{
    let word = words.get(place)?;
    if word.as_str() != name {
        return None;
    }
    Some(FileWord {
        name,
        place: place as u64,
    })
}

// The files that the words at these places name.
fn files_at<'a>(
    alloc: Global,
    words: &'a [String],
    places: &[usize],
    names: &[&'a str],
) -> Option<Vec<FileWord<'a>>>
    ensures { IfSome result
        (λ files. AreFiles (texts words.entry.now) places.now (map (λ n. n.now) names.now) files.items) }
{
    if places.len() != names.len() {
        return None;
    }
    let mut files = Vec::new(alloc);
    'names: for (index, name) in names.iter().enumerate() {
        let Some(file) = file_at(words, places[index], name) else {
            return None;
        };
        let Ok(()) = files.push(file) else {
            return None;
        };
    }
    Some(files)
}

// The file that the first word names that is a value of its own.
fn first_file<'a>(words: &'a [String], places: &[usize], name: &'a str) -> Option<FileWord<'a>>
    requires { places.now ≡ positional_places (texts words.now) }
    ensures first { IfSome result (λ f. IsFirstWord (texts words.entry.now) f) }
    ensures name { IfSome result (λ f. f.name.now ≡ name.entry.now) }
{
    match places.first() {
        Some(place) => file_at(words, *place, name),
        None => None,
    }
}

// What the matches of `init` ask for.
#[tactic(auto, using(crate::proofs::Rows::rows))]
fn init_request<'a>(
    alloc: Global,
    words: &'a [String],
    inner: &ArgMatches<'a>,
) -> Result<Request<'a>, WordsFault>
    requires { NameCommand (texts words.now) (codes "init") (rows_of (found_of inner.now)) }
    ensures asked { IfOk result (λ r. WordsAskFor (texts words.entry.now) r) }
    ensures refused { IfErr result (λ e. AreWordsRefused (texts words.entry.now) e) }
{
    let shape = match shape_of(inner) {
        Ok(shape) => shape,
        Err(fault) => return Err(fault),
    };
    let Some(name) = inner.get_str("mint") else {
        return Err(WordsFault::Memory);
    };
    let Ok(places) = positional_places(alloc, words) else {
        return Err(WordsFault::Memory);
    };
    match first_file(words, places.as_slice(), name) {
        Some(mint) => Ok(Request::Init { shape, mint }),
        None => Err(WordsFault::Memory),
    }
}

// The file of the verdicts.
fn verdicts_of<'a>(words: &'a [String], name: &'a str) -> Option<FileWord<'a>>
    ensures given { IfSome result (λ f. IsGivenBy (codes "verdicts") (texts words.entry.now) f) }
    ensures name { IfSome result (λ f. f.name.now ≡ name.entry.now) }
{
    let option = option_of(words, "verdicts")?;
    match option.value {
        Some(value) if value == name => Some(FileWord {
            name,
            place: option.place as u64,
        }),
        Some(_) => None,
        None => file_at(words, option.place + 1, name),
    }
}

// The number of an option, from 0 to a limit.
#[tactic(auto, using(crate::proofs::Rows::rows))]
fn number_up_to<'a>(inner: &ArgMatches<'a>, option: &str, most: u32) -> Result<u32, WordsFault>
    ensures number { IfOk result (λ n. HasUpTo (rows_of (found_of inner.now)) option.now most n) }
    ensures none { IsErrOf result WordsFault.Bad
        → HasNoUpTo (rows_of (found_of inner.now)) option.now most }
{
    let Some(text) = inner.get_str(option) else {
        return Err(WordsFault::Memory);
    };
    match up_to_in(text, most) {
        Some(n) => Ok(n),
        None => Err(WordsFault::Bad),
    }
}

// What the matches of `run` ask for, by its options.
#[tactic(auto, using(crate::proofs::Rows::rows))]
fn files_to_run<'a>(
    alloc: Global,
    words: &'a [String],
    inner: &ArgMatches<'a>,
    options: RunOptions,
) -> Option<Request<'a>>
    requires met { NameCommand (texts words.now) (codes "run") (rows_of (found_of inner.now)) }
    requires repeats { HasRepeats (rows_of (found_of inner.now)) options.repeats }
    ensures { IfSome result (λ r. WordsAskFor (texts words.entry.now) r) }
{
    let Some(name) = inner.get_str("verdicts") else {
        return None;
    };
    let Some(verdicts) = verdicts_of(words, name) else {
        return None;
    };
    let Some(names) = inner.get_strs("client") else {
        return None;
    };
    let Ok(places) = positional_places(alloc, words) else {
        return None;
    };
    match files_at(alloc, words, places.as_slice(), names) {
        Some(clients) => Some(Request::Run {
            verdicts,
            clients,
            options,
        }),
        None => None,
    }
}

// What the matches of `run` ask for.
fn run_request<'a>(
    alloc: Global,
    words: &'a [String],
    inner: &ArgMatches<'a>,
) -> Result<Request<'a>, WordsFault>
    requires { NameCommand (texts words.now) (codes "run") (rows_of (found_of inner.now)) }
    ensures asked { IfOk result (λ r. WordsAskFor (texts words.entry.now) r) }
    ensures refused { IfErr result (λ e. AreWordsRefused (texts words.entry.now) e) }
{
    match number_up_to(inner, "repeats", 3) {
        Ok(repeats) => {
            files_to_run(alloc, words, inner, RunOptions { repeats }).ok_or(WordsFault::Memory)
        }
        Err(fault) => Err(fault),
    }
}

// The client files of an audit, which may be left out.
#[tactic(auto, using(crate::proofs::Rows::rows))]
fn rest_of<'a>(
    alloc: Global,
    words: &'a [String],
    places: &[usize],
    inner: &ArgMatches<'a>,
) -> Option<Vec<FileWord<'a>>>
    ensures { IfSome result (λ files. AreFiles (texts words.entry.now) places.now
        (names_or_none (all_of (codes "client") (rows_of (found_of inner.now)))) files.items) }
{
    match inner.get_strs("client") {
        Some(names) => files_at(alloc, words, places, names),
        None => files_at(alloc, words, places, &[]),
    }
}

// What the matches of `audit` ask for.
#[tactic(auto, using(crate::proofs::Rows::rows))]
fn audit_request<'a>(
    alloc: Global,
    words: &'a [String],
    inner: &ArgMatches<'a>,
) -> Option<Request<'a>>
    requires { NameCommand (texts words.now) (codes "audit") (rows_of (found_of inner.now)) }
    ensures { IfSome result (λ r. WordsAskFor (texts words.entry.now) r) }
{
    let Some(name) = inner.get_str("mint") else {
        return None;
    };
    let Ok(places) = positional_places(alloc, words) else {
        return None;
    };
    let Some(mint) = first_file(words, places.as_slice(), name) else {
        return None;
    };
    let Some((_, rest)) = places.split_first() else {
        return None;
    };
    match rest_of(alloc, words, rest, inner) {
        Some(clients) => Some(Request::Audit { mint, clients }),
        None => None,
    }
}

// The hashes that texts spell.
fn hashes_of(alloc: Global, given: &[&str]) -> Result<Vec<Hash>, WordsFault>
    ensures hashes { IfOk result
        (λ hs. map decode_of (map (λ t. t.now) given.now) ≡ map (λ h. Ok h) hs.items) }
    ensures none { IsErrOf result WordsFault.Bad → HasNoHashes (map (λ t. t.now) given.now) }
{
    let mut hashes = Vec::new(alloc);
    'given: for text in given {
        let Some(hash) = hash_in(text) else {
            return Err(WordsFault::Bad);
        };
        let Ok(()) = hashes.push(hash) else {
            return Err(WordsFault::Memory);
        };
    }
    Ok(hashes)
}

// What the matches of `status` ask for.
fn status_request<'a, 'b>(
    alloc: Global,
    words: &'b [String],
    inner: &ArgMatches<'b>,
) -> Result<Request<'a>, WordsFault>
    requires { NameCommand (texts words.now) (codes "status") (rows_of (found_of inner.now)) }
    ensures asked { IfOk result (λ r. WordsAskFor (texts words.entry.now) r) }
    ensures refused { IfErr result (λ e. AreWordsRefused (texts words.entry.now) e) }
{
    let Some(given) = inner.get_strs("hash") else {
        return Err(WordsFault::Memory);
    };
    match hashes_of(alloc, given) {
        Ok(hashes) => Ok(Request::Status { hashes }),
        Err(fault) => Err(fault),
    }
}

// The seed of a workload.
#[tactic(auto, using(crate::proofs::Rows::rows))]
fn seed_of<'a>(inner: &ArgMatches<'a>) -> Result<u64, WordsFault>
    ensures seed { IfOk result (λ n. HasSeed (rows_of (found_of inner.now)) n) }
    ensures none { IsErrOf result WordsFault.Bad → HasNoSeed (rows_of (found_of inner.now)) }
{
    let Some(text) = inner.get_str("seed") else {
        return Err(WordsFault::Memory);
    };
    match whole_in(text) {
        Some(n) => Ok(n),
        None => Err(WordsFault::Bad),
    }
}

// Whether an auditor looks at the nodes while the lanes run.
#[tactic(auto, using(crate::proofs::Rows::rows))]
fn watch_of<'a>(inner: &ArgMatches<'a>) -> Option<bool>
    ensures { IfSome result (λ watch. HasWatch (rows_of (found_of inner.now)) watch) }
{
    let Some(text) = inner.get_str("watch") else {
        return None;
    };
    if text == "true" {
        return Some(true);
    }
    if text == "false" {
        return Some(false);
    }
    None
}

// How the workload is run.
fn gen_options_of<'a>(inner: &ArgMatches<'a>) -> Result<GenOptions, WordsFault>
    ensures replicas { IfOk result (λ o. HasReplicas (rows_of (found_of inner.now)) o.replicas) }
    ensures watch { IfOk result (λ o. HasWatch (rows_of (found_of inner.now)) o.watch) }
    ensures none { IsErrOf result WordsFault.Bad → HasNoReplicas (rows_of (found_of inner.now)) }
{
    let replicas = number_up_to(inner, "replicas", 3)?;
    let watch = watch_of(inner).ok_or(WordsFault::Memory)?;
    Ok(GenOptions { replicas, watch })
}

// What the matches of `gen` ask for, by its shape and its options.
#[tactic(auto, using(crate::proofs::Rows::rows))]
fn workload_of<'a, 'b>(
    words: &'b [String],
    inner: &ArgMatches<'b>,
    shape: Shape,
    options: GenOptions,
) -> Result<Request<'a>, WordsFault>
    requires met { NameCommand (texts words.now) (codes "gen") (rows_of (found_of inner.now)) }
    requires shape { HasShape (rows_of (found_of inner.now)) shape }
    requires replicas { HasReplicas (rows_of (found_of inner.now)) options.replicas }
    requires watch { HasWatch (rows_of (found_of inner.now)) options.watch }
    ensures asked { IfOk result (λ r. WordsAskFor (texts words.entry.now) r) }
    ensures refused { IfErr result (λ e. AreWordsRefused (texts words.entry.now) e) }
{
    let seed = match seed_of(inner) {
        Ok(seed) => seed,
        Err(fault) => return Err(fault),
    };
    match number(inner, "count", 10_000) {
        Ok(count) => Ok(Request::Gen {
            shape,
            seed,
            count,
            options,
        }),
        Err(fault) => Err(fault),
    }
}

// What the matches of `gen` ask for.
fn gen_request<'a, 'b>(
    words: &'b [String],
    inner: &ArgMatches<'b>,
) -> Result<Request<'a>, WordsFault>
    requires { NameCommand (texts words.now) (codes "gen") (rows_of (found_of inner.now)) }
    ensures asked { IfOk result (λ r. WordsAskFor (texts words.entry.now) r) }
    ensures refused { IfErr result (λ e. AreWordsRefused (texts words.entry.now) e) }
{
    let options = match gen_options_of(inner) {
        Ok(options) => options,
        Err(fault) => return Err(fault),
    };
    match shape_of(inner) {
        Ok(shape) => workload_of(words, inner, shape, options),
        Err(fault) => Err(fault),
    }
}

// What the matches of the command of this name ask for.
fn asked_by<'a>(
    alloc: Global,
    words: &'a [String],
    name: &str,
    inner: &ArgMatches<'a>,
) -> Result<Request<'a>, WordsFault>
    requires { NameCommand (texts words.now) name.now (rows_of (found_of inner.now)) }
    ensures asked { IfOk result (λ r. WordsAskFor (texts words.entry.now) r) }
    ensures refused { IfErr result (λ e. AreWordsRefused (texts words.entry.now) e) }
{
    if name == "init" {
        return init_request(alloc, words, inner);
    }
    if name == "run" {
        return run_request(alloc, words, inner);
    }
    if name == "recover" {
        return Ok(Request::Recover);
    }
    if name == "status" {
        return status_request(alloc, words, inner);
    }
    if name == "audit" {
        return audit_request(alloc, words, inner).ok_or(WordsFault::Memory);
    }
    if name == "gen" {
        return gen_request(words, inner);
    }
    if name == "help" {
        return help_asked(alloc, words, inner);
    }
    Err(WordsFault::Memory)
}

// What the matches ask for.
fn asked_of<'a>(
    alloc: Global,
    words: &'a [String],
    matches: &ArgMatches<'a>,
) -> Result<Request<'a>, WordsFault>
    requires sound { fault_of hamilton (texts words.now) ≡ [] }
    requires met { subcommand_of hamilton (texts words.now) ≡ subcommand_rows_of matches.now }
    ensures asked { IfOk result (λ r. WordsAskFor (texts words.entry.now) r) }
    ensures refused { IfErr result (λ e. AreWordsRefused (texts words.entry.now) e) }
{
    match matches.subcommand() {
        Some((name, inner)) => asked_by(alloc, words, name, inner),
        None => Err(WordsFault::Memory),
    }
}

/// Parses the words, the first of which is the program's name.
///
/// Init, Run, Recover and Status name a command of sound words. Init's numbers are those that its options spell in decimal, within their limits;
/// its mint is the first word that is a value of its own (no option, no option's value and not the first `--`; behind that each word is one), and
/// its place is that word's; Run's clients are all such words, in order, each at its place; its verdicts are the value of the first `--verdicts`,
/// at the place of that option where a `=` joins them, else of the next word, and its repeats the number from 0 to 3 that its option spells in
/// decimal, 0 where it is left out; Status has the hash of each word in order; Audit's mint is the first such word, and its clients are all others.
/// Gen's replicas are the number from 0 to 3 that its option spells so, 0 where it is left out, and it is watched where that flag stands there.
/// Each name is what clap took, too. Show only where help or the version is wished.
///
/// Bad only where there is a mistake, an option of Init or of Gen, or the repeats of Run, are no number within their limit, or a word of Status is
/// not 64 hexadecimal digits.
pub fn parse<'a>(alloc: Global, words: &'a [String]) -> Result<Request<'a>, WordsFault>
    ensures asked { IfOk result (λ r. WordsAskFor (texts words.entry.now) r) }
    ensures refused { IfErr result (λ e. AreWordsRefused (texts words.entry.now) e) }
{
    match matches_of(alloc, words) {
        Ok(matches) => asked_of(alloc, words, &matches),
        Err(error) => answer_to(alloc, &error),
    }
}
