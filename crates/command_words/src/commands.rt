//! The commands, the options that each has, and which of them are asked together.
ghost use Rattle.std.specs.Prelude.{◌≡◌, ◌==◌, length, map, option_map, string_bytes};
ghost use Rattle.command_words.specs.Options.{command_word, command_of, group_options, groups, is_flag, optional_groups, options, required_options};

use crate::options::OptionName;

/// The commands.
#[derive(Clone, Copy, Debug, PartialEq, Eq)]
pub(crate) enum CommandName {
    Decompose,
    Envelope,
    Rank,
    Check,
    Generate,
}

/// Options of which only one is asked.
#[derive(Clone, Copy, Debug, PartialEq, Eq)]
pub(crate) enum OptionGroup {
    /// What is looked for: one mass, or the peaks of a file.
    Sought,
    /// How far from it.
    Tolerance,
    /// What is printed in the place of the report as text.
    Form,
}

static DECOMPOSE_OPTIONS: [OptionName; 12] = [
    OptionName::Table,
    OptionName::Mass,
    OptionName::Peaks,
    OptionName::Ppm,
    OptionName::Da,
    OptionName::PpmCalc,
    OptionName::Alphabet,
    OptionName::Adduct,
    OptionName::Rules,
    OptionName::Limit,
    OptionName::After,
    OptionName::Json,
];

static ENVELOPE_OPTIONS: [OptionName; 7] = [
    OptionName::Table,
    OptionName::Tracer,
    OptionName::Adduct,
    OptionName::Formula,
    OptionName::Coverage,
    OptionName::Certificate,
    OptionName::Json,
];

static RANK_OPTIONS: [OptionName; 14] = [
    OptionName::Table,
    OptionName::Tracer,
    OptionName::Peaks,
    OptionName::Ppm,
    OptionName::Da,
    OptionName::PpmCalc,
    OptionName::Alphabet,
    OptionName::Adduct,
    OptionName::Rules,
    OptionName::Coverage,
    OptionName::Peak,
    OptionName::Turn,
    OptionName::Turns,
    OptionName::Json,
];

static CHECK_OPTIONS: [OptionName; 3] = [
    OptionName::Table,
    OptionName::Tracer,
    OptionName::Certificate,
];

static GENERATE_OPTIONS: [OptionName; 2] = [OptionName::Table, OptionName::Number];

static DECOMPOSE_REQUIRED: [OptionName; 2] = [OptionName::Table, OptionName::Alphabet];

static ENVELOPE_REQUIRED: [OptionName; 3] = [
    OptionName::Table,
    OptionName::Formula,
    OptionName::Coverage,
];

static RANK_REQUIRED: [OptionName; 4] = [
    OptionName::Table,
    OptionName::Peaks,
    OptionName::Alphabet,
    OptionName::Coverage,
];

static CHECK_REQUIRED: [OptionName; 2] = [OptionName::Table, OptionName::Certificate];

static GENERATE_REQUIRED: [OptionName; 2] = [OptionName::Table, OptionName::Number];

static DECOMPOSE_GROUPS: [OptionGroup; 2] = [OptionGroup::Sought, OptionGroup::Tolerance];

static RANK_GROUPS: [OptionGroup; 1] = [OptionGroup::Tolerance];

static ENVELOPE_OPTIONAL_GROUPS: [OptionGroup; 1] = [OptionGroup::Form];

static SOUGHT_OPTIONS: [OptionName; 2] = [OptionName::Mass, OptionName::Peaks];

static TOLERANCE_OPTIONS: [OptionName; 3] = [OptionName::Ppm, OptionName::Da, OptionName::PpmCalc];

static FORM_OPTIONS: [OptionName; 2] = [OptionName::Certificate, OptionName::Json];

impl CommandName {
    /// The command that a first word names.
    pub(crate) fn of(word: &String) -> Option<CommandName>
        ensures { result ≡ command_of (string_bytes word.now) }
    {
        match word.as_str() {
            "decompose" => Some(CommandName::Decompose),
            "envelope" => Some(CommandName::Envelope),
            "rank" => Some(CommandName::Rank),
            "check" => Some(CommandName::Check),
            "generate" => Some(CommandName::Generate),
            _ => None,
        }
    }

    /// The first word that names it.
    pub(crate) fn word(self) -> &'static str
        ensures { result.now ≡ command_word self }
    {
        match self {
            CommandName::Decompose => "decompose",
            CommandName::Envelope => "envelope",
            CommandName::Rank => "rank",
            CommandName::Check => "check",
            CommandName::Generate => "generate",
        }
    }

    /// The options that it has, in the order of their table.
    pub(crate) fn options(self) -> &'static [OptionName]
        ensures { result.now ≡ options self }
    {
        match self {
            CommandName::Decompose => DECOMPOSE_OPTIONS.as_slice(),
            CommandName::Envelope => ENVELOPE_OPTIONS.as_slice(),
            CommandName::Rank => RANK_OPTIONS.as_slice(),
            CommandName::Check => CHECK_OPTIONS.as_slice(),
            CommandName::Generate => GENERATE_OPTIONS.as_slice(),
        }
    }

    /// Whether an option is a flag of the command, and has no value there.
    pub(crate) fn has_flag(self, option: OptionName) -> bool
        ensures { result ≡ is_flag self option }
    {
        matches!(
            (self, option),
            (CommandName::Envelope, OptionName::Certificate) | (_, OptionName::Json)
        )
    }

    /// Those of them that it requires.
    pub(crate) fn required_options(self) -> &'static [OptionName]
        ensures { result.now ≡ required_options self }
    {
        match self {
            CommandName::Decompose => DECOMPOSE_REQUIRED.as_slice(),
            CommandName::Envelope => ENVELOPE_REQUIRED.as_slice(),
            CommandName::Rank => RANK_REQUIRED.as_slice(),
            CommandName::Check => CHECK_REQUIRED.as_slice(),
            CommandName::Generate => GENERATE_REQUIRED.as_slice(),
        }
    }

    /// The groups of them of which it asks exactly one.
    pub(crate) fn groups(self) -> &'static [OptionGroup]
        ensures { result.now ≡ groups self }
    {
        match self {
            CommandName::Decompose => DECOMPOSE_GROUPS.as_slice(),
            CommandName::Rank => RANK_GROUPS.as_slice(),
            _ => &[],
        }
    }

    /// The groups of them of which it asks at most one.
    pub(crate) fn optional_groups(self) -> &'static [OptionGroup]
        ensures { result.now ≡ optional_groups self }
    {
        match self {
            CommandName::Envelope => ENVELOPE_OPTIONAL_GROUPS.as_slice(),
            _ => &[],
        }
    }
}

impl OptionGroup {
    /// The options of the group.
    pub(crate) fn options(self) -> &'static [OptionName]
        ensures { result.now ≡ group_options self }
    {
        match self {
            OptionGroup::Sought => SOUGHT_OPTIONS.as_slice(),
            OptionGroup::Tolerance => TOLERANCE_OPTIONS.as_slice(),
            OptionGroup::Form => FORM_OPTIONS.as_slice(),
        }
    }
}
