//! The matches of `clap`: which option stands with which value.
ghost use Rattle.std.specs.Prelude.{◌≡◌, ℕ, List, Some, None, IfOk, IfErr, drop, map, option_map, position, ◌==◌, string_bytes, false, true, ⊤, MatchBool};
ghost use Rattle.clap.specs.Words.{app_of, found_of, kind_of, rows_of, rule_of};
ghost use Rattle.std.specs.List.{list_all};
ghost use Rattle.clap.specs.Lexer.{strip_byte};
ghost use Rattle.command_words.specs.ClapCommands.{command_app, given_in, option_rule};
ghost use Rattle.command_words.specs.Options.{command_word, is_flag, name};
ghost use Rattle.command_words.specs.Uses.{Use, arguments, is_value, value_in};
ghost use Rattle.command_words.specs.WordReading.{is_memory, is_readable, is_readable_option, uses_of};
ghost use Rattle.command_words.specs.declared.fault.WordsFault.TheVariants.{Memory, Words};

use crate::commands::CommandName;
use crate::fault::WordsFault;
use crate::options::OptionName;
use clap::{Arg, ArgAction, ArgMatches, Command};
use std::alloc::Global;

/// Whether a word can be a value: it isn't empty and doesn't begin with a hyphen.
fn is_value(word: &[u8]) -> bool
    ensures { result ≡ is_value word.now }
{
    match word {
        [] => false,
        [first, ..] => *first != b'-',
    }
}

/// What follows a first hyphen.
fn behind_hyphen(word: &[u8]) -> Option<&[u8]>
    ensures { option_map (λ rest. rest.now) result ≡ strip_byte 45 word.now }
{
    match word {
        [b'-', rest @ ..] => Some(rest),
        _ => None,
    }
}

/// Where the first `=` is.
fn equals_at(option: &[u8]) -> Option<usize>
    ensures { result ≡ position (λ byte. byte == 61) option.now }
{
    option.iter().position(|byte| *byte == b'=')
}

/// Whether this, behind two hyphens, is a name with or without something behind a first `=` that can be a value.
fn is_readable_option(option: &[u8]) -> bool
    ensures { result ≡ is_readable_option option.now }
{
    match equals_at(option) {
        Some(at) => is_value(&option[at + 1..]),
        None => !option.is_empty(),
    }
}

/// Whether a word can be a value, or is `--name`, with or without something behind a first `=` that can be a
/// value.
pub(crate) fn is_readable(word: &[u8]) -> bool
    ensures { result ≡ is_readable word.now }
{
    match behind_hyphen(word).and_then(behind_hyphen) {
        Some(option) => is_readable_option(option),
        None => is_value(word),
    }
}

/// An option as `clap` knows it: a flag, or with one value.
fn clap_option<'a>(alloc: Global, command: CommandName, option: OptionName) -> Arg<'a>
    ensures rule { rule_of result ≡ option_rule (name option, is_flag command option) }
    ensures local { result.global ≡ false }
{
    let name: &'a str = option.name();
    let action = if command.has_flag(option) {
        ArgAction::SetTrue
    } else {
        ArgAction::Set
    };
    Arg::new(alloc, name).long(name).action(action)
}

/// The `clap` command with the first word and the options of a command, and no word for help.
fn clap_command<'a>(alloc: Global, command: CommandName) -> Result<Command<'a>, WordsFault>
    ensures app { IfOk result (λ clap. app_of clap ≡ command_app (command_word command) (arguments command)) }
    ensures memory { IfErr result (λ fault. fault ≡ Memory) }
{
    let first: &'a str = command.word();
    let mut clap = Command::new(alloc, first).disable_help_flag(true);
    for option in command.options() {
        clap = clap.arg(clap_option(alloc, command, *option))?;
    }
    Ok(clap)
}

/// The matches of a command's options in words that are readable behind the first.
pub(crate) fn matches_of<'a>(
    alloc: Global,
    command: CommandName,
    words: &'a [String],
) -> Result<ArgMatches<'a>, WordsFault>
    requires readable { list_all is_readable (drop 1 (map string_bytes words.now)) ≡ true }
    ensures read { IfOk result (λ matches. (uses : List Use)
        × (uses_of (arguments command) (drop 1 (map string_bytes words.entry.now)) ≡ Some uses)
        × ((name : List ℕ) → given_in (rows_of (found_of matches)) name ≡ value_in uses name)) }
    ensures unread { IfErr result (λ fault. MatchBool (is_memory fault) ⊤
        ((uses_of (arguments command) (drop 1 (map string_bytes words.entry.now)) ≡ None) × (fault ≡ Words))) }
{
    let matches = clap_command(alloc, command)?.try_get_matches_from(words)?;
    Ok(matches)
}
