//! What the words of a command line ask for.
ghost use Rattle.std.specs.Prelude.{◌≡◌, IfOk, IfSome, map, option_map, option_and_then, string_bytes, false};
ghost use Rattle.clap.specs.Words.{all_of, app_of, first_of, found_of, rows_of, rule_of};
ghost use Rattle.blazes_words.specs.Requests.{AreMatches, asked_by, files_shown, line_shown, make_shown, shard_shown, soak_shown, why_shown, witness_shown};
ghost use Rattle.blazes_words.specs.Numbers.{AreFew, IsCount};
ghost use Rattle.blazes_words.specs.Words.{bare_command, simple_command, command_rule, file_rule, option_rule};
ghost use Rattle.blazes_words.specs.Words as spec;

use crate::numbers::{bounds_of, count_of, place_of, seed_of};
use clap::error::ErrorKind;
use clap::{Arg, ArgAction, ArgMatches, Command};
use std::alloc::{AllocError, Global};

/// The names of the files of a run.
#[derive(Clone, Copy, PartialEq, Eq)]
pub struct RunFiles<'a> {
    pub topology: &'a str,
    /// The data.
    pub given: &'a str,
    pub schedule: &'a str,
}

/// The names of the files of a schedule that is to be made, and its seed.
#[derive(Clone, Copy, PartialEq, Eq)]
pub struct MakeWords<'a> {
    pub topology: &'a str,
    /// The data.
    pub given: &'a str,
    pub seed: u64,
}

/// The seed of a run of the built-in topology, and its count of batches, from 1 to 3,276.
#[derive(Clone, Copy, PartialEq, Eq)]
pub struct SoakWords {
    pub seed: u64,
    pub count: u32,
}

/// The component that is to be split, with the column and the bounds of its buckets.
#[derive(Drop)]
pub struct ShardWords<'a> {
    pub topology: &'a str,
    pub component: &'a str,
    pub column: &'a str,
    /// 1 to 7 in increasing order.
    pub bounds: Vec<i64>,
}

/// The names of the files of two runs of one topology over the same data.
#[derive(Clone, Copy, PartialEq, Eq)]
pub struct WitnessFiles<'a> {
    pub topology: &'a str,
    /// The data.
    pub given: &'a str,
    /// The first schedule.
    pub first: &'a str,
    /// The second schedule.
    pub second: &'a str,
}

/// The names of the files of a run, and the record that is asked about: its place in an emitted list.
#[derive(Clone, Copy, PartialEq, Eq)]
pub struct WhyWords<'a> {
    pub topology: &'a str,
    /// The data.
    pub given: &'a str,
    pub schedule: &'a str,
    /// The stream's name.
    pub stream: &'a str,
    /// The sender's replica, counted from 0.
    pub replica: u32,
    /// The place in the emitted list, counted from 0.
    pub index: u32,
}

/// What a command line asks for.
#[derive(Drop)]
pub enum Request<'a> {
    /// The labels of the topology in the file of this name.
    Label { topology: &'a str },
    /// How they come about.
    Derive { topology: &'a str },
    /// Its plan.
    Plan { topology: &'a str },
    /// What its instances emit under a schedule over data.
    Run(RunFiles<'a>),
    /// A schedule over data that leaves nothing to deliver.
    Make(MakeWords<'a>),
    /// A summary of a run of the built-in topology.
    Soak(SoakWords),
    /// The topology with copies of a component.
    Shard(ShardWords<'a>),
    /// What its instances emit under a schedule over data in which they may forget.
    Restart(RunFiles<'a>),
    /// Where what they emit differs between two schedules over data.
    Witness(WitnessFiles<'a>),
    /// Which events of a schedule over data a record needs.
    Why(WhyWords<'a>),
}

// The words of a command line, taken apart.
#[derive(Drop)]
struct Line<'m, 'a> {
    command: &'a str,
    words: Option<&'m [&'a str]>,
    seed: Option<&'a str>,
    count: Option<&'a str>,
}

fn command_arg<'a>(alloc: Global) -> Arg<'a>
    ensures rule { rule_of result ≡ command_rule }
    ensures local { result.global ≡ false }
{
    Arg::new(alloc, "command")
        .required(true)
        .action(ArgAction::Set)
}

fn file_arg<'a>(alloc: Global) -> Arg<'a>
    ensures rule { rule_of result ≡ file_rule }
    ensures local { result.global ≡ false }
{
    Arg::new(alloc, "file")
        .action(ArgAction::Append)
        .num_args(0..)
}

fn option_arg<'a>(alloc: Global, name: &'a str) -> Arg<'a>
    ensures rule { rule_of result ≡ option_rule name.entry.now }
    ensures local { result.global ≡ false }
{
    Arg::new(alloc, name).long(name).action(ArgAction::Set)
}

fn bare<'a>(alloc: Global) -> Command<'a>
    ensures { app_of result ≡ bare_command }
{
    Command::new(alloc, "blazes")
        .no_binary_name(true)
        .disable_help_flag(true)
}

fn command<'a>(alloc: Global) -> Result<Command<'a>, AllocError>
    ensures { IfOk result (λ command. app_of command ≡ simple_command) }
{
    let named = bare(alloc).arg(command_arg(alloc))?;
    let with_files = named.arg(file_arg(alloc))?;
    let with_seed = with_files.arg(option_arg(alloc, "seed"))?;
    let with_count = with_seed.arg(option_arg(alloc, "count"))?;
    Ok(with_count)
}

// The words as the simple command reads them, where it finds no fault.
fn read_words<'a>(alloc: Global, words: &'a [String]) -> Result<Option<ArgMatches<'a>>, AllocError>
    ensures { IfOk result (AreMatches (map string_bytes words.entry.now)) }
{
    let command = command(alloc)?;
    match command.try_get_matches_from(words) {
        Ok(matches) => Ok(Some(matches)),
        Err(fault) => {
            if fault.kind() == ErrorKind::OutOfMemory {
                return Err(AllocError);
            }
            Ok(None)
        }
    }
}

// The first value under a name.
fn value_of<'a>(matches: &ArgMatches<'a>, name: &str) -> Option<&'a str>
    ensures { option_map (λ value. value.now) result ≡ first_of name.now (rows_of (found_of matches.now)) }
{
    matches.get_str(name)
}

// All values under a name.
fn values_of<'m, 'a>(matches: &'m ArgMatches<'a>, name: &str) -> Option<&'m [&'a str]>
    ensures { option_map (λ values. map (λ value. value.now) values.now) result ≡ all_of name.now (rows_of (found_of matches.now)) }
{
    matches.get_strs(name)
}

// The line that these matches make.
fn line_of<'m, 'a>(matches: &'m ArgMatches<'a>) -> Option<Line<'m, 'a>>
    ensures { option_map line_shown result ≡ spec.line_of (rows_of (found_of matches.now)) }
{
    let command = value_of(matches, "command")?;
    Some(Line {
        command,
        words: values_of(matches, "file"),
        seed: value_of(matches, "seed"),
        count: value_of(matches, "count"),
    })
}

// The one word after a command without options.
fn only_word<'a>(line: &Line<'_, 'a>) -> Option<&'a str>
    ensures { option_map (λ word. word.now) result ≡ spec.only_word (line_shown line.now) }
{
    if line.seed.is_some() || line.count.is_some() {
        return None;
    }
    match line.words {
        Some([word]) => Some(*word),
        _ => None,
    }
}

// The three words after a command without options.
fn run_files<'a>(line: &Line<'_, 'a>) -> Option<RunFiles<'a>>
    ensures { option_map files_shown result ≡ spec.run_files (line_shown line.now) }
{
    if line.seed.is_some() || line.count.is_some() {
        return None;
    }
    match line.words {
        Some([topology, given, schedule]) => Some(RunFiles {
            topology: *topology,
            given: *given,
            schedule: *schedule,
        }),
        _ => None,
    }
}

// The two words after a command with a seed alone.
fn make_words<'a>(line: &Line<'_, 'a>) -> Option<MakeWords<'a>>
    ensures { option_map make_shown result ≡ spec.make_words (line_shown line.now) }
{
    if line.count.is_some() {
        return None;
    }
    let seed = seed_of(line.seed)?;
    match line.words {
        Some([topology, given]) => Some(MakeWords {
            topology: *topology,
            given: *given,
            seed,
        }),
        _ => None,
    }
}

fn has_words(line: &Line<'_, '_>) -> bool
    ensures { result ≡ spec.has_words (line_shown line.now) }
{
    match line.words {
        Some(words) => !words.is_empty(),
        None => false,
    }
}

// The seed and the count of a command without words after it.
fn soak_words(line: &Line<'_, '_>) -> Option<SoakWords>
    ensures range { IfSome result (λ words. IsCount words.count) }
    ensures value { option_map soak_shown result ≡ spec.soak_words (line_shown line.now) }
{
    if has_words(line) {
        return None;
    }
    let seed = seed_of(line.seed)?;
    let count = count_of(line.count)?;
    Some(SoakWords { seed, count })
}

// The three words after a command without options, and the bounds behind them.
fn shard_words<'a>(alloc: Global, line: &Line<'_, 'a>) -> Result<Option<ShardWords<'a>>, AllocError>
    ensures few { IfOk result (λ words. IfSome words (λ words. AreFew words.bounds.items)) }
    ensures value { IfOk result (λ words. option_map shard_shown words ≡ spec.shard_words (line_shown line.now)) }
{
    if line.seed.is_some() || line.count.is_some() {
        return Ok(None);
    }
    match line.words {
        Some([topology, component, column, others @ ..]) => match bounds_of(alloc, others)? {
            Some(bounds) => Ok(Some(ShardWords {
                topology: *topology,
                component: *component,
                column: *column,
                bounds,
            })),
            None => Ok(None),
        },
        _ => Ok(None),
    }
}

// The four words after a command without options.
fn witness_files<'a>(line: &Line<'_, 'a>) -> Option<WitnessFiles<'a>>
    ensures { option_map witness_shown result ≡ spec.witness_files (line_shown line.now) }
{
    if line.seed.is_some() || line.count.is_some() {
        return None;
    }
    match line.words {
        Some([topology, given, first, second]) => Some(WitnessFiles {
            topology: *topology,
            given: *given,
            first: *first,
            second: *second,
        }),
        _ => None,
    }
}

// The six words after a command without options, of which the last two are numbers.
fn why_words<'a>(line: &Line<'_, 'a>) -> Option<WhyWords<'a>>
    ensures { option_map why_shown result ≡ spec.why_words (line_shown line.now) }
{
    if line.seed.is_some() || line.count.is_some() {
        return None;
    }
    match line.words {
        Some([topology, given, schedule, stream, replica, index]) => Some(WhyWords {
            topology: *topology,
            given: *given,
            schedule: *schedule,
            stream: *stream,
            replica: place_of(replica)?,
            index: place_of(index)?,
        }),
        _ => None,
    }
}

// What a line asks for.
fn request_for<'a>(alloc: Global, line: &Line<'_, 'a>) -> Result<Option<Request<'a>>, AllocError>
    ensures within { IfOk result (λ request. IfSome request (λ request. spec.IsWithin (asked_by request))) }
    ensures value { IfOk result (λ request. option_map asked_by request ≡ spec.asked (line_shown line.now)) }
{
    match line.command {
        "label" => Ok(only_word(line).map(|topology| Request::Label { topology })),
        "derive" => Ok(only_word(line).map(|topology| Request::Derive { topology })),
        "plan" => Ok(only_word(line).map(|topology| Request::Plan { topology })),
        "run" => Ok(run_files(line).map(Request::Run)),
        "make" => Ok(make_words(line).map(Request::Make)),
        "soak" => match soak_words(line) {
            Some(words) => Ok(Some(Request::Soak(words))),
            None => Ok(None),
        },
        "shard" => Ok(shard_words(alloc, line)?.map(Request::Shard)),
        "restart" => Ok(run_files(line).map(Request::Restart)),
        "witness" => Ok(witness_files(line).map(Request::Witness)),
        "why" => Ok(why_words(line).map(Request::Why)),
        _ => Ok(None),
    }
}

// What matching words ask for.
fn request_in<'a>(
    alloc: Global,
    matches: &ArgMatches<'a>,
) -> Result<Option<Request<'a>>, AllocError>
    ensures within { IfOk result (λ request. IfSome request (λ request. spec.IsWithin (asked_by request))) }
    ensures value { IfOk result (λ request. option_map asked_by request ≡ option_and_then spec.asked (spec.line_of (rows_of (found_of matches.now)))) }
{
    match line_of(matches) {
        Some(line) => request_for(alloc, &line),
        None => Ok(None),
    }
}

/// What the words ask for; `None` where they don't match the simple command, or no command that is
/// built has such words after it.
pub fn request_of<'a>(alloc: Global, words: &'a [String]) -> Result<Option<Request<'a>>, AllocError>
    ensures within { IfOk result (λ request. IfSome request (λ request. spec.IsWithin (asked_by request))) }
    ensures value { IfOk result (λ request. option_map asked_by request ≡ spec.request_of (map string_bytes words.entry.now)) }
{
    match read_words(alloc, words)? {
        Some(matches) => request_in(alloc, &matches),
        None => Ok(None),
    }
}
