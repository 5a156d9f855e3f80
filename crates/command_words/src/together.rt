//! Which options go together, and which of their values are in their ranges.
ghost use Rattle.std.specs.Prelude.{◌≡◌, find, is_some};
ghost use Rattle.std.specs.List.{list_all};
ghost use Rattle.clap.specs.Words.{found_of};
ghost use Rattle.command_words.specs.Requests.{first_outside, given_count, go_together, has_companion, has_one, has_one_at_most};
ghost use Rattle.command_words.specs.WordReading.{matched};

use crate::commands::{CommandName, OptionGroup};
use crate::options::OptionName;
use crate::values::{has_value_outside, is_given};
use clap::ArgMatches;

/// How many options of a group are given.
fn given_count(matches: &ArgMatches<'_>, group: OptionGroup) -> usize
    ensures { result ≡ given_count (matched (found_of matches.now)) group }
{
    let given = group
        .options()
        .iter()
        .filter(|option| is_given(matches, **option));
    given.count()
}

/// Whether an option isn't given, or is and the one too without which it isn't asked.
fn has_companion(matches: &ArgMatches<'_>, option: OptionName) -> bool
    ensures { result ≡ has_companion (matched (found_of matches.now)) option }
{
    match option.companion() {
        Some(companion) => !is_given(matches, option) || is_given(matches, companion),
        None => true,
    }
}

/// Whether each of these options is given.
fn are_given(matches: &ArgMatches<'_>, options: &[OptionName]) -> bool
    ensures { result ≡ list_all (λ option. is_some (matched (found_of matches.now) option)) options.now }
{
    options.iter().all(|option| is_given(matches, *option))
}

/// Whether exactly one option of each of these groups is given.
fn have_one(matches: &ArgMatches<'_>, groups: &[OptionGroup]) -> bool
    ensures { result ≡ list_all (has_one (matched (found_of matches.now))) groups.now }
{
    groups.iter().all(|group| given_count(matches, *group) == 1)
}

/// Whether at most one option of each of these groups is given.
fn have_one_at_most(matches: &ArgMatches<'_>, groups: &[OptionGroup]) -> bool
    ensures { result ≡ list_all (has_one_at_most (matched (found_of matches.now))) groups.now }
{
    groups.iter().all(|group| given_count(matches, *group) <= 1)
}

/// Whether none of these options is given without the one without which it isn't asked.
fn have_companions(matches: &ArgMatches<'_>, options: &[OptionName]) -> bool
    ensures { result ≡ list_all (has_companion (matched (found_of matches.now))) options.now }
{
    options.iter().all(|option| has_companion(matches, *option))
}

/// Whether the options that a command is given go together: each that it requires, exactly one of each of its groups,
/// at most one of each of its optional groups, and none without the one that it goes with.
pub(crate) fn go_together(matches: &ArgMatches<'_>, command: CommandName) -> bool
    ensures { result ≡ go_together command (matched (found_of matches.now)) }
{
    are_given(matches, command.required_options())
        && have_one(matches, command.groups())
        && have_one_at_most(matches, command.optional_groups())
        && have_companions(matches, command.options())
}

/// The first option in the order of the table that is given a value outside its range.
pub(crate) fn first_outside(matches: &ArgMatches<'_>, command: CommandName) -> Option<OptionName>
    ensures { result ≡ first_outside command (matched (found_of matches.now)) }
{
    command
        .options()
        .iter()
        .copied()
        .find(|option| has_value_outside(matches, *option))
}
