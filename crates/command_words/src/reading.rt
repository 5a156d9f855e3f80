//! The request of the words.
ghost use Rattle.std.specs.Prelude.{◌≡◌, List, map, string_bytes, IfOk, IfErr, Result};
ghost use Rattle.std.specs.List.{list_all};
ghost use Rattle.reader_answers.specs.Answers.{Gives};
ghost use Rattle.clap.specs.Words.{found_of};
ghost use Rattle.command_words.specs.Requests.{Asks, HasRanges, IsOfTable};
ghost use Rattle.command_words.specs.WordReading.{check_request, decompose_request, envelope_request, generate_request};
ghost use Rattle.command_words.specs.WordReading.{rank_request, is_memory, is_readable, matched, request_of};
ghost use Rattle.command_words.specs.WordReading.{values_request};
ghost use Rattle.command_words.specs.declared.fault.WordsFault.{WordsFault};
ghost use Rattle.command_words.specs.declared.request.Request.{Request};

use crate::commands::CommandName;
use crate::fault::WordsFault;
use crate::matches::{is_readable, matches_of};
use crate::options::OptionName;
use crate::request::Request;
use crate::together::{first_outside, go_together};
use crate::values::{
    given_text, is_given, number_of, required_number, required_text, tolerance_of,
};
use clap::ArgMatches;
use std::alloc::Global;

/// Reads the words behind the program's name as a request. The first names a command; the others give each option
/// of it that they name its value, as `--name value` or `--name=value`, and flags as `--name`, in any order. The
/// answer is [`WordsFault::Words`] where they don't, or where the options that they give don't go together, and else
/// [`WordsFault::Value`] of the first option in the order of the table whose value is outside its range. Options go
/// together where each is given that the command requires, exactly one of those of which one is asked, at most one of
/// those that exclude each other, and none without the one that it goes with.
pub fn request_of(alloc: Global, words: &Vec<String>) -> Result<Request, WordsFault>
    // The answer, unless it is want of memory.
    ensures gives { Gives is_memory result (request_of (map string_bytes words.now.items)) }

    // That is what the words ask for, and the only answer that they may have.
    ensures meaning { Asks (map string_bytes words.now.items) (request_of (map string_bytes words.now.items)) }
    ensures only { (answer : Result Request WordsFault) → Asks (map string_bytes words.now.items) answer
        → answer ≡ request_of (map string_bytes words.now.items) }
    ensures ranges { IfOk result HasRanges }
    ensures in_table { IfErr result IsOfTable }
{
    words_request(alloc, words.as_slice())
}

/// The request of the words behind the program's name.
fn words_request(alloc: Global, words: &[String]) -> Result<Request, WordsFault>
    ensures { Gives is_memory result (request_of (map string_bytes words.now)) }
{
    let Some((first, rest)) = words.split_first() else {
        return Err(WordsFault::Words);
    };
    let Some(command) = CommandName::of(first) else {
        return Err(WordsFault::Words);
    };
    if !are_readable(rest) {
        return Err(WordsFault::Words);
    }
    let matches = matches_of(alloc, command, words)?;
    matched_request(alloc, command, &matches)
}

/// Whether each word can be a value, or is `--name` or `--name=value`.
fn are_readable(words: &[String]) -> bool
    ensures { result ≡ list_all (λ word. is_readable (string_bytes word)) words.now }
{
    words.iter().all(|word| is_readable(word.as_bytes()))
}

/// The request that the matches of a command make.
fn matched_request(
    alloc: Global,
    command: CommandName,
    matches: &ArgMatches<'_>,
) -> Result<Request, WordsFault>
    ensures { Gives is_memory result (values_request command (matched (found_of matches.now))) }
{
    if !go_together(matches, command) {
        return Err(WordsFault::Words);
    }
    if let Some(option) = first_outside(matches, command) {
        return Err(WordsFault::Value {
            option: option.number(),
        });
    }
    match command {
        CommandName::Decompose => decompose_request(alloc, matches),
        CommandName::Envelope => envelope_request(alloc, matches),
        CommandName::Rank => rank_request(alloc, matches),
        CommandName::Check => check_request(alloc, matches),
        CommandName::Generate => generate_request(alloc, matches),
    }
}

/// The request that the values of `decompose` make.
#[tactic(auto, unfolding(crate::specs::WordReading::decompose_request))]
fn decompose_request(alloc: Global, matches: &ArgMatches<'_>) -> Result<Request, WordsFault>
    ensures { Gives is_memory result (decompose_request (matched (found_of matches.now))) }
{
    Ok(Request::Decompose {
        table: required_text(alloc, matches, OptionName::Table)?,
        mass: number_of(matches, OptionName::Mass),
        peaks: given_text(alloc, matches, OptionName::Peaks)?,
        tolerance: tolerance_of(matches).ok_or(WordsFault::Words)?,
        alphabet: required_text(alloc, matches, OptionName::Alphabet)?,
        adduct: required_text(alloc, matches, OptionName::Adduct)?,
        rules: required_text(alloc, matches, OptionName::Rules)?,
        limit: number_of(matches, OptionName::Limit),
        after: given_text(alloc, matches, OptionName::After)?,
        json: is_given(matches, OptionName::Json),
    })
}

/// The request that the values of `envelope` make.
#[tactic(auto, unfolding(crate::specs::WordReading::envelope_request))]
fn envelope_request(alloc: Global, matches: &ArgMatches<'_>) -> Result<Request, WordsFault>
    ensures { Gives is_memory result (envelope_request (matched (found_of matches.now))) }
{
    Ok(Request::Envelope {
        table: required_text(alloc, matches, OptionName::Table)?,
        tracer: given_text(alloc, matches, OptionName::Tracer)?,
        adduct: required_text(alloc, matches, OptionName::Adduct)?,
        formula: required_text(alloc, matches, OptionName::Formula)?,
        coverage: required_number(matches, OptionName::Coverage)?,
        certificate: is_given(matches, OptionName::Certificate),
        json: is_given(matches, OptionName::Json),
    })
}

/// The request that the values of `rank` make.
#[tactic(auto, unfolding(crate::specs::WordReading::rank_request))]
fn rank_request(alloc: Global, matches: &ArgMatches<'_>) -> Result<Request, WordsFault>
    ensures { Gives is_memory result (rank_request (matched (found_of matches.now))) }
{
    Ok(Request::Rank {
        table: required_text(alloc, matches, OptionName::Table)?,
        tracer: given_text(alloc, matches, OptionName::Tracer)?,
        peaks: required_text(alloc, matches, OptionName::Peaks)?,
        tolerance: tolerance_of(matches).ok_or(WordsFault::Words)?,
        alphabet: required_text(alloc, matches, OptionName::Alphabet)?,
        adduct: required_text(alloc, matches, OptionName::Adduct)?,
        rules: required_text(alloc, matches, OptionName::Rules)?,
        coverage: required_number(matches, OptionName::Coverage)?,
        peak: number_of(matches, OptionName::Peak),
        turn: required_number(matches, OptionName::Turn)?,
        turns: number_of(matches, OptionName::Turns),
        json: is_given(matches, OptionName::Json),
    })
}

/// The request that the values of `check` make.
#[tactic(auto, unfolding(crate::specs::WordReading::check_request))]
fn check_request(alloc: Global, matches: &ArgMatches<'_>) -> Result<Request, WordsFault>
    ensures { Gives is_memory result (check_request (matched (found_of matches.now))) }
{
    Ok(Request::Check {
        table: required_text(alloc, matches, OptionName::Table)?,
        tracer: given_text(alloc, matches, OptionName::Tracer)?,
        certificate: required_text(alloc, matches, OptionName::Certificate)?,
    })
}

/// The request that the values of `generate` make.
#[tactic(auto, unfolding(crate::specs::WordReading::generate_request))]
fn generate_request(alloc: Global, matches: &ArgMatches<'_>) -> Result<Request, WordsFault>
    ensures { Gives is_memory result (generate_request (matched (found_of matches.now))) }
{
    Ok(Request::Generate {
        table: required_text(alloc, matches, OptionName::Table)?,
        number: required_number(matches, OptionName::Number)?,
    })
}
