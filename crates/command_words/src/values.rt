//! The values that the matches of `clap` have, their numbers and their defaults.
ghost use Rattle.std.specs.Prelude.{◌≡◌, IfOk, is_some, option_map};
ghost use Rattle.clap.specs.Words.{found_of};
ghost use Rattle.reader_answers.specs.Answers.{Gives, or_fault};
ghost use Rattle.command_words.specs.Options.{kind, number_within};
ghost use Rattle.command_words.specs.Requests.{has_value_outside, is_outside, number_of, text_of, tolerance_of};
ghost use Rattle.command_words.specs.WordReading.{is_memory, matched, required_number, required_text};
ghost use Rattle.command_words.specs.declared.fault.WordsFault.TheVariants.{Words};

use crate::fault::WordsFault;
use crate::options::{OptionName, ValueKind};
use crate::word::Word;
use clap::ArgMatches;
use clap::parser::ValueSource;
use fixed_decimal::{Fixed, whole_within};
use mass_scaling::Tolerance;
use std::alloc::{AllocError, Global};

/// The value of an option, if it is given. A value that `clap` puts in the place of an absent flag isn't.
fn value_of<'a>(matches: &ArgMatches<'a>, option: OptionName) -> Option<&'a str>
    ensures { option_map (λ text. text.now) result ≡ matched (found_of matches.now) option }
{
    let name = option.name();
    match matches.value_source(name)? {
        ValueSource::CommandLine => matches.get_str(name),
        ValueSource::DefaultValue => None,
    }
}

/// Whether an option is given.
pub(crate) fn is_given(matches: &ArgMatches<'_>, option: OptionName) -> bool
    ensures { result ≡ is_some (matched (found_of matches.now) option) }
{
    value_of(matches, option).is_some()
}

/// The number of a value of this kind; a text has none.
fn number_within(kind: ValueKind, value: &[u8]) -> Option<u64>
    ensures { result ≡ number_within kind value.now }
{
    match kind {
        ValueKind::Text => None,
        ValueKind::Daltons { low, high } => {
            let number = Fixed::<12>::read_within(value, low, high)?;
            Some(number.units())
        }
        ValueKind::Ppm { low, high } => {
            let number = Fixed::<3>::read_within(value, low, high)?;
            Some(number.units())
        }
        ValueKind::Fraction { low, high } => {
            let number = Fixed::<18>::read_within(value, low, high)?;
            Some(number.units())
        }
        ValueKind::Whole { low, high } => whole_within(value, low, high),
    }
}

/// Whether a value of this kind is outside its range; a text isn't.
fn is_outside(kind: ValueKind, value: &[u8]) -> bool
    ensures { result ≡ is_outside kind value.now }
{
    kind != ValueKind::Text && number_within(kind, value).is_none()
}

/// Whether an option is given a value outside its range.
pub(crate) fn has_value_outside(matches: &ArgMatches<'_>, option: OptionName) -> bool
    ensures { result ≡ has_value_outside (matched (found_of matches.now)) option }
{
    match value_of(matches, option) {
        Some(value) => is_outside(option.kind(), value.as_bytes()),
        None => false,
    }
}

/// The number that an option is given, in its unit and within its range.
pub(crate) fn number_of(matches: &ArgMatches<'_>, option: OptionName) -> Option<u64>
    ensures { result ≡ number_of (matched (found_of matches.now)) option }
{
    number_within(option.kind(), value_of(matches, option)?.as_bytes())
}

/// The number that an option is given which has to be, or else its default.
pub(crate) fn required_number(
    matches: &ArgMatches<'_>,
    option: OptionName,
) -> Result<u64, WordsFault>
    ensures { result ≡ required_number (matched (found_of matches.now)) option }
{
    let number = number_of(matches, option).or(option.default_number());
    number.ok_or(WordsFault::Words)
}

/// The text that an option is given, if it is.
pub(crate) fn given_text(
    alloc: Global,
    matches: &ArgMatches<'_>,
    option: OptionName,
) -> Result<Option<Word>, AllocError>
    ensures { IfOk result (λ word. word ≡ matched (found_of matches.now) option) }
{
    match value_of(matches, option) {
        Some(value) => Ok(Some(word_of(alloc, value)?)),
        None => Ok(None),
    }
}

/// The text that an option is given which has to be, or else its default.
pub(crate) fn required_text(
    alloc: Global,
    matches: &ArgMatches<'_>,
    option: OptionName,
) -> Result<Word, WordsFault>
    ensures { Gives is_memory result (required_text (matched (found_of matches.now)) option) }
{
    let value = value_of(matches, option).or(option.default_text());
    let word = word_of(alloc, value.ok_or(WordsFault::Words)?)?;
    Ok(word)
}

/// The tolerance, by the one of its options that is given.
pub(crate) fn tolerance_of(matches: &ArgMatches<'_>) -> Option<Tolerance>
    ensures { result ≡ tolerance_of (matched (found_of matches.now)) }
{
    if let Some(thousandths) = number_of(matches, OptionName::Ppm) {
        return Some(Tolerance::Ppm { thousandths });
    }
    if let Some(units) = number_of(matches, OptionName::Da) {
        return Some(Tolerance::Da { units });
    }
    let thousandths = number_of(matches, OptionName::PpmCalc)?;
    Some(Tolerance::PpmCalculated { thousandths })
}

/// A value as a word of its own.
fn word_of(alloc: Global, value: &str) -> Result<Word, AllocError>
    ensures { IfOk result (λ word. word ≡ value.now) }
{
    let text = value.to_string(alloc)?;
    Ok(Word::of(text))
}
