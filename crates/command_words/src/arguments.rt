//! Reading the words of the command line: the first is the command, and what `clap` takes behind it is the grammar.
ghost use Rattle.std.specs.Prelude.{◌≡◌, ◌≢◌, ◌<◌, ◌^◌, [], false, map, string_bytes, Some, None, option_map, IfOk, IfSome, IsErrOf};
ghost use Rattle.clap.specs.Words.{app_of, first_of, found_of, rows_of, rule_of};
ghost use Rattle.command_words.specs.Arguments as grammar;
ghost use Rattle.command_words.specs.Words as spec;
ghost use Rattle.command_words.specs.declared.words.Order.TheVariants as orders;
ghost use Rattle.command_words.specs.declared.words.Verb.TheVariants as verbs;

use crate::viewing::viewing_of;
use crate::words::{
    Asked, Command, OfFile, Order, Serving, Verb, live_of, verb_named, workload_of,
};
use clap::error::ErrorKind;
use clap::{Arg, ArgAction, ArgMatches, Command as Grammar};
use std::alloc::{AllocError, Global};
use synth::{MOST_SCRAPES, MOST_TARGETS};
use value_text::{digit_count, number_of};

/// Why words ask for nothing.
#[derive(Clone, Copy, PartialEq, Eq, Debug)]
pub enum WordsError {
    /// They are none of the program's.
    Bad,
    /// An allocation failed.
    NoMemory,
}

impl From<AllocError> for WordsError {
    ghost use Rattle.std.specs.Prelude.{◌≡◌};
    ghost use Rattle.command_words.specs.declared.arguments.WordsError.TheVariants as variants;

    ghost from_gives = { λ _ error. error ≡ variants.NoMemory };

    fn from(_: AllocError) -> WordsError {
        WordsError::NoMemory
    }
}

/// A flag, as `--kept`.
fn flag<'a>(alloc: Global, id: &'a str) -> Arg<'a>
    ensures rule { rule_of result ≡ grammar.flag_rule id.now }
    ensures local { result.global ≡ false }
{
    Arg::new(alloc, id).long(id).action(ArgAction::SetTrue)
}

/// A word that has to be there.
fn word<'a>(alloc: Global, id: &'a str) -> Arg<'a>
    ensures rule { rule_of result ≡ grammar.word_rule id.now }
    ensures local { result.global ≡ false }
{
    Arg::new(alloc, id).required(true)
}

/// A command without arguments, without help and version flags.
fn bare<'a>(alloc: Global, name: &'a str) -> Grammar<'a>
    ensures { app_of result ≡ grammar.bare_app name.now }
{
    Grammar::new(alloc, name)
        .disable_help_flag(true)
        .disable_version_flag(true)
}

/// `replay [--kept] [--cut] FILE`.
fn replay_grammar<'a>(alloc: Global) -> Result<Grammar<'a>, AllocError>
    ensures { IfOk result (λ g. app_of g ≡ grammar.replay_app) }
{
    let with_kept = bare(alloc, "replay").arg(flag(alloc, "kept"))?;
    let with_cut = with_kept.arg(flag(alloc, "cut"))?;
    let whole = with_cut.arg(word(alloc, "file"))?;
    Ok(whole)
}

/// `check FILE`, `convert FILE`.
fn file_grammar<'a>(alloc: Global, name: &'a str) -> Result<Grammar<'a>, AllocError>
    ensures { IfOk result (λ g. app_of g ≡ grammar.file_app name.now) }
{
    let whole = bare(alloc, name).arg(word(alloc, "file"))?;
    Ok(whole)
}

/// `at MS SELECTOR FILE`.
fn at_grammar<'a>(alloc: Global) -> Result<Grammar<'a>, AllocError>
    ensures { IfOk result (λ g. app_of g ≡ grammar.at_app) }
{
    let with_moment = bare(alloc, "at").arg(word(alloc, "ms"))?;
    let with_selector = with_moment.arg(word(alloc, "selector"))?;
    let whole = with_selector.arg(word(alloc, "file"))?;
    Ok(whole)
}

/// `synth SEED TARGETS SCRAPES`.
fn synth_grammar<'a>(alloc: Global) -> Result<Grammar<'a>, AllocError>
    ensures { IfOk result (λ g. app_of g ≡ grammar.synth_app) }
{
    let with_seed = bare(alloc, "synth").arg(word(alloc, "seed"))?;
    let with_targets = with_seed.arg(word(alloc, "targets"))?;
    let whole = with_targets.arg(word(alloc, "scrapes"))?;
    Ok(whole)
}

/// `run --turns N [--kept] FILE`.
fn run_grammar<'a>(alloc: Global) -> Result<Grammar<'a>, AllocError>
    ensures { IfOk result (λ g. app_of g ≡ grammar.run_app) }
{
    let turns = Arg::new(alloc, "turns").long("turns").required(true);
    let with_turns = bare(alloc, "run").arg(turns)?;
    let with_kept = with_turns.arg(flag(alloc, "kept"))?;
    let whole = with_kept.arg(word(alloc, "file"))?;
    Ok(whole)
}

/// `serve SCRIPT FILE`.
fn serve_grammar<'a>(alloc: Global) -> Result<Grammar<'a>, AllocError>
    ensures { IfOk result (λ g. app_of g ≡ grammar.serve_app) }
{
    let with_script = bare(alloc, "serve").arg(word(alloc, "script"))?;
    let whole = with_script.arg(word(alloc, "file"))?;
    Ok(whole)
}

fn grammar_of<'a>(alloc: Global, verb: Verb) -> Result<Grammar<'a>, AllocError>
    ensures { IfOk result (λ g. app_of g ≡ grammar.app_for verb) }
{
    match verb {
        Verb::Replay => replay_grammar(alloc),
        Verb::Check => file_grammar(alloc, "check"),
        Verb::Convert => file_grammar(alloc, "convert"),
        Verb::At => at_grammar(alloc),
        Verb::Synth => synth_grammar(alloc),
        Verb::Run => run_grammar(alloc),
        Verb::Serve => serve_grammar(alloc),
    }
}

/// What a command's grammar makes of the words, of which the first is the command.
fn matches_in<'a>(
    alloc: Global,
    verb: Verb,
    words: &'a [String],
) -> Result<ArgMatches<'a>, WordsError>
    ensures sound { IfOk result (λ _. grammar.fault_in verb (map string_bytes words.entry.now) ≡ []) }
    ensures rows { IfOk result (λ m. rows_of (found_of m) ≡ grammar.rows_in verb (map string_bytes words.entry.now)) }
    ensures refused { IsErrOf result WordsError.Bad → grammar.fault_in verb (map string_bytes words.entry.now) ≢ [] }
{
    let grammar = grammar_of(alloc, verb)?;
    match grammar.try_get_matches_from(words) {
        Ok(matches) => Ok(matches),
        Err(error) => match error.kind() {
            ErrorKind::OutOfMemory => Err(WordsError::NoMemory),
            _ => Err(WordsError::Bad),
        },
    }
}

/// Whether a flag was given: its value is then `true`.
fn is_given(id: &str, matches: &ArgMatches<'_>) -> bool
    ensures { result ≡ spec.is_given id.now (rows_of (found_of matches.now)) }
{
    match matches.get_str(id) {
        Some(value) => value == "true",
        None => false,
    }
}

/// The word that was given for an argument.
fn word_in<'a>(id: &str, matches: &ArgMatches<'a>) -> Option<&'a str>
    ensures { option_map (λ word. word.now) result ≡ first_of id.now (rows_of (found_of matches.now)) }
{
    matches.get_str(id)
}

/// What a command over a file is asked for.
fn asked_by_file<'a>(command: Command<'a>, matches: &ArgMatches<'a>) -> Option<Asked<'a>>
    ensures { result ≡ spec.asked_by_file command.entry (rows_of (found_of matches.now)) }
{
    match word_in("file", matches) {
        Some(file) => Some(Asked::File(OfFile {
            command,
            kept: is_given("kept", matches),
            file,
        })),
        None => None,
    }
}

/// What `replay` is asked for.
fn replay_asked<'a>(matches: &ArgMatches<'a>) -> Option<Asked<'a>>
    ensures { result ≡ spec.replay_asked (rows_of (found_of matches.now)) }
{
    let cut = is_given("cut", matches);
    asked_by_file(Command::Replay { cut }, matches)
}

/// The number that 1 to so many digits spell, below a limit.
#[tactic(auto, unfolding(crate::specs::Words::number_below))]
fn number_below(most: usize, limit: u64, text: &[u8]) -> Option<u64>
    ensures number { result ≡ spec.number_below most limit text.now }
    ensures below { IfSome result (λ n. n < limit) }
{
    let count = digit_count(text);
    if count != text.len() || count < 1 || count > most {
        return None;
    }
    match number_of(text) {
        Some(number) => { if number < limit { Some(number) } else { None } }
        None => None,
    }
}

/// The number that was given for an argument.
fn number_in(id: &str, most: usize, limit: u64, matches: &ArgMatches<'_>) -> Option<u64>
    ensures number { result ≡ spec.number_in id.now most limit (rows_of (found_of matches.now)) }
    ensures below { IfSome result (λ n. n < limit) }
{
    match word_in(id, matches) {
        Some(word) => number_below(most, limit, word.as_bytes()),
        None => None,
    }
}

/// What `at` is asked for.
fn at_asked<'a>(matches: &ArgMatches<'a>) -> Option<Asked<'a>>
    ensures { result ≡ spec.at_asked (rows_of (found_of matches.now)) }
{
    let moment = number_in("ms", 16, 1 << 52, matches);
    match (moment, word_in("selector", matches)) {
        (Some(moment), Some(selector)) => {
            let command = Command::At(viewing_of(moment, selector));
            asked_by_file(command, matches)
        }
        _ => None,
    }
}

/// The workload that is asked for.
fn asked_by_numbers<'a>(matches: &ArgMatches<'_>) -> Option<Asked<'a>>
    ensures { result ≡ spec.workload_by (rows_of (found_of matches.now)) }
{
    let seed = number_in("seed", 10, 1 << 32, matches);
    let targets = number_in("targets", 10, MOST_TARGETS + 1, matches);
    let scrapes = number_in("scrapes", 10, MOST_SCRAPES + 1, matches);
    match (seed, targets, scrapes) {
        (Some(seed), Some(targets), Some(scrapes)) => workload_of(seed, targets, scrapes),
        _ => None,
    }
}

/// The live run that is asked for.
fn order_by_turns<'a>(matches: &ArgMatches<'a>) -> Option<Order<'a>>
    ensures { result ≡ spec.order_by verbs.Run (rows_of (found_of matches.now)) }
{
    let turns = number_in("turns", 10, 1_000_001, matches);
    match (turns, word_in("file", matches)) {
        (Some(turns), Some(file)) => Some(live_of(turns, is_given("kept", matches), file)),
        _ => None,
    }
}

/// The serving that is asked for.
fn order_by_script<'a>(matches: &ArgMatches<'a>) -> Option<Order<'a>>
    ensures { result ≡ spec.order_by verbs.Serve (rows_of (found_of matches.now)) }
{
    match (word_in("script", matches), word_in("file", matches)) {
        (Some(script), Some(file)) => Some(Order::Serve(Serving { script, file })),
        _ => None,
    }
}

/// What the program does by itself for a command.
fn still(asked: Option<Asked<'_>>) -> Option<Order<'_>>
    ensures { result ≡ option_map orders.Still asked.entry }
{
    match asked {
        Some(asked) => Some(Order::Still(asked)),
        None => None,
    }
}

/// What a command is asked for, by what its grammar made of the words.
fn order_by<'a>(verb: Verb, matches: &ArgMatches<'a>) -> Option<Order<'a>>
    ensures { result ≡ spec.order_by verb (rows_of (found_of matches.now)) }
{
    match verb {
        Verb::Replay => still(replay_asked(matches)),
        Verb::Check => still(asked_by_file(Command::Check, matches)),
        Verb::Convert => still(asked_by_file(Command::Convert, matches)),
        Verb::At => still(at_asked(matches)),
        Verb::Synth => still(asked_by_numbers(matches)),
        Verb::Run => order_by_turns(matches),
        Verb::Serve => order_by_script(matches),
    }
}

/// What the words ask a command for.
fn order_of<'a>(alloc: Global, verb: Verb, words: &'a [String]) -> Result<Order<'a>, WordsError>
    ensures asked { IfOk result (λ a. spec.order_of verb (map string_bytes words.entry.now) ≡ Some a) }
    ensures refused { IsErrOf result WordsError.Bad → spec.order_of verb (map string_bytes words.entry.now) ≡ None }
{
    let matches = matches_in(alloc, verb, words)?;
    match order_by(verb, &matches) {
        Some(order) => Ok(order),
        None => Err(WordsError::Bad),
    }
}

/// What the words behind the program's name ask for.
pub fn order_in<'a>(alloc: Global, words: &'a [String]) -> Result<Order<'a>, WordsError>
    ensures asked { IfOk result (λ a. spec.order_in (map string_bytes words.entry.now) ≡ Some a) }
    ensures refused { IsErrOf result WordsError.Bad → spec.order_in (map string_bytes words.entry.now) ≡ None }
{
    match words {
        [] => Err(WordsError::Bad),
        [word, ..] => match verb_named(word.as_str()) {
            Some(verb) => order_of(alloc, verb, words),
            None => Err(WordsError::Bad),
        },
    }
}

/// What the words ask for that the program does by itself.
pub fn asked_in<'a>(alloc: Global, words: &'a [String]) -> Result<Asked<'a>, WordsError>
    ensures asked { IfOk result (λ a. spec.asked_in (map string_bytes words.entry.now) ≡ Some a) }
    ensures refused { IsErrOf result WordsError.Bad → spec.asked_in (map string_bytes words.entry.now) ≡ None }
{
    match order_in(alloc, words)? {
        Order::Still(asked) => Ok(asked),
        Order::Run(_) | Order::Serve(_) => Err(WordsError::Bad),
    }
}
