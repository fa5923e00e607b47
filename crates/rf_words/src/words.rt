//! The command line, read by `clap` and turned into a task.

ghost use Rattle.std.specs.Prelude.{◌≡◌, ◌≢◌, Some, None, IfOk, IfErr, map, string_bytes, option_and_then, option_map, false};
ghost use Rattle.clap.specs.Words.{app_of, first_of, found_of, rows_of, rule_of, subcommand_rows_of};
ghost use Rattle.clap.specs.declared.builder.Command.TheViews.{out-Command};
ghost use Rattle.rf_base.specs.Decimal.{number_of};
ghost use Rattle.rf_words.specs.Words as spec;

use crate::asked::{Asked, MAX_DEMO_LINES};
use crate::word::Word;
use clap::error::ErrorKind;
use clap::{Arg, ArgMatches, Command};
use rf_base::read_number;
use std::alloc::{AllocError, Global};

/// Why words of the command line ask for nothing.
#[derive(Clone, Copy, PartialEq, Eq)]
pub enum WordsFault {
    /// They run no command.
    Usage,
    /// No memory was found.
    Memory,
}

impl From<AllocError> for WordsFault {
    ghost use Rattle.rf_words.specs.declared.words.WordsFault.TheVariants.{Memory};

    ghost from_gives = { λ _ e. e ≡ Memory };

    fn from(_: AllocError) -> WordsFault {
        WordsFault::Memory
    }
}

/// What the words after the program's name ask for. Plain words ask for what they say; other words ask for something
/// only where `clap` takes them and reads it from them.
///
/// - `Usage`: `clap` doesn't take the words, or what it reads from them is no command of the program.
/// - `Memory`: no memory was found.
pub fn read_words(alloc: Global, words: &[String]) -> Result<Asked, WordsFault>
    ensures asked { IfOk result (λ asked. spec.asked_by (map string_bytes words.now) ≡ Some asked) }
    ensures usage { IfErr result (λ e. e ≢ WordsFault.Memory → spec.asked_by (map string_bytes words.now) ≡ None) }
    ensures plain { (asked : Asked) → spec.IsPlain (map string_bytes words.now) asked →
        spec.asked_by (map string_bytes words.now) ≡ Some asked }
    ensures of_plain { (asked : Asked) → spec.asked_by (map string_bytes words.now) ≡ Some asked → spec.HasPlain asked }
{
    let command = match command(alloc) {
        Ok(command) => command,
        Err(_) => return Err(WordsFault::Memory),
    };
    match command.try_get_matches_from(words) {
        Ok(matches) => asked_of(alloc, &matches),
        Err(e) => match e.kind() {
            ErrorKind::OutOfMemory => Err(WordsFault::Memory),
            _ => Err(WordsFault::Usage),
        },
    }
}

/// What the matches name.
fn asked_of(alloc: Global, matches: &ArgMatches) -> Result<Asked, WordsFault>
    ensures asked { IfOk result (λ asked. spec.read_from (subcommand_rows_of matches.now) ≡ Some asked) }
    ensures usage { IfErr result (λ e. e ≢ WordsFault.Memory → spec.read_from (subcommand_rows_of matches.now) ≡ None) }
{
    let Some((name, operands)) = matches.subcommand() else {
        return Err(WordsFault::Usage);
    };
    match name {
        "session" => Ok(Asked::Session),
        "check" => {
            let (show, log) = files_of(
                alloc,
                value_of(operands, "show"),
                value_of(operands, "log"),
            )?;
            Ok(Asked::Check { show, log })
        }
        "audit" => {
            let (show, log) = files_of(
                alloc,
                value_of(operands, "show"),
                value_of(operands, "log"),
            )?;
            Ok(Asked::Audit { show, log })
        }
        "demo" => demo_of(value_of(operands, "seed"), value_of(operands, "count")),
        _ => Err(WordsFault::Usage),
    }
}

/// The words of two files, where both can name a file.
fn files_of(
    alloc: Global,
    show: Option<&str>,
    log: Option<&str>,
) -> Result<(Word, Word), WordsFault>
    ensures files { IfOk result (λ files. spec.files_of (option_map (λ s. s.now) show.entry) (option_map (λ s. s.now) log.entry) ≡ Some files) }
    ensures usage { IfErr result (λ e. e ≢ WordsFault.Memory →
        spec.files_of (option_map (λ s. s.now) show.entry) (option_map (λ s. s.now) log.entry) ≡ None) }
{
    match (show, log) {
        (Some(show), Some(log)) if is_file_word(show) && is_file_word(log) => {
            Ok((Word::of(alloc, show)?, Word::of(alloc, log)?))
        }
        _ => Err(WordsFault::Usage),
    }
}

/// A demonstration, where both words are numbers in their range.
fn demo_of(seed: Option<&str>, count: Option<&str>) -> Result<Asked, WordsFault>
    ensures asked { IfOk result (λ asked. spec.demo_of (option_map (λ s. s.now) seed.entry) (option_map (λ s. s.now) count.entry) ≡ Some asked) }
    ensures usage { IfErr result (λ e. e ≢ WordsFault.Memory →
        spec.demo_of (option_map (λ s. s.now) seed.entry) (option_map (λ s. s.now) count.entry) ≡ None) }
{
    match (number_in(seed), number_in(count)) {
        (Some(seed), Some(count)) if count <= MAX_DEMO_LINES => Ok(Asked::Demo { seed, count }),
        _ => Err(WordsFault::Usage),
    }
}

/// The number that a word writes, where it is there.
fn number_in(word: Option<&str>) -> Option<u32>
    ensures { result ≡ option_and_then number_of (option_map (λ s. s.now) word.entry) }
{
    read_number(word?.as_bytes())
}

/// The value of an operand.
fn value_of<'a>(matches: &ArgMatches<'a>, id: &str) -> Option<&'a str>
    ensures { option_map (λ s. s.now) result ≡ first_of id.now (rows_of (found_of matches.now)) }
{
    matches.get_str(id)
}

/// Whether a word can name a file: it isn't empty and doesn't begin with `-`.
fn is_file_word(word: &str) -> bool
    ensures { result ≡ spec.is_file_word word.now }
{
    match word.as_bytes() {
        [] => false,
        [first, ..] => *first != b'-',
    }
}

/// The command line of the program.
fn command<'a>(alloc: Global) -> Result<Command<'a>, AllocError>
    ensures { IfOk result (λ c. app_of c ≡ spec.app) }
{
    let session = Command::new(alloc, "session");
    let check = two_operands(alloc, "check", "show", "log")?;
    let audit = two_operands(alloc, "audit", "show", "log")?;
    let demo = two_operands(alloc, "demo", "seed", "count")?;
    Command::new(alloc, "rfcoord")
        .no_binary_name(true)
        .disable_help_flag(true)
        .disable_help_subcommand(true)
        .subcommand(session)?
        .subcommand(check)?
        .subcommand(audit)?
        .subcommand(demo)
}

/// A subcommand that takes two words.
fn two_operands<'a>(
    alloc: Global,
    name: &'a str,
    first: &'a str,
    second: &'a str,
) -> Result<Command<'a>, AllocError>
    ensures app { IfOk result (λ c. app_of c ≡ spec.two_operands name.entry.now first.entry.now second.entry.now) }
    ensures local { IfOk result (λ c. (out-Command c).has_globals ≡ false) }
{
    Command::new(alloc, name)
        .arg(operand(alloc, first))?
        .arg(operand(alloc, second))
}

/// An operand that must be there.
fn operand<'a>(alloc: Global, id: &'a str) -> Arg<'a>
    ensures rule { rule_of result ≡ spec.operand id.entry.now }
    ensures local { result.global ≡ false }
{
    Arg::new(alloc, id).required(true)
}
