//! The table of options.
ghost use Rattle.std.specs.Prelude.{◌≡◌, ◌==◌, find, option_map};
ghost use Rattle.command_words.specs.Options.{companion, default_number, default_text, name, word, kind, number, option_table, option_word};

use mass_scaling::{MAX_DA, MAX_MZ, MAX_PPM};

/// The least m/z, or mass for the neutral adduct, in 10^-12 Da.
pub const MIN_MZ: u64 = 1;

/// The least coverage, in 10^-18.
pub const MIN_COVERAGE: u64 = 1;

/// The greatest coverage, 0.999999, in 10^-18.
pub const MAX_COVERAGE: u64 = 999_999_000_000_000_000;

/// The least number of candidates that can be asked for.
pub const MIN_LIMIT: u64 = 1;

/// The greatest number of candidates that can be asked for.
pub const MAX_LIMIT: u64 = 1_048_576;

/// The least number of a peak.
pub const MIN_PEAK: u64 = 1;

/// The greatest number of a peak.
pub const MAX_PEAK: u64 = 10_000;

/// The least allowance of a turn.
pub const MIN_TURN: u64 = 1;

/// The greatest allowance of a turn.
pub const MAX_TURN: u64 = 1_048_576;

/// The allowance of a turn where none is given.
pub const DEFAULT_TURN: u64 = 64;

/// The most turns.
pub const MAX_TURNS: u64 = 1_000_000;

/// The greatest number that a run of the generator can begin with: 2^31 - 1.
pub const MAX_NUMBER: u64 = 2_147_483_647;

/// How many options there are; they are numbered from 1.
pub const OPTION_COUNT: u32 = 20;

/// The options, in the order of their table.
#[derive(Clone, Copy, Debug, PartialEq, Eq)]
pub(crate) enum OptionName {
    Table,
    Tracer,
    Mass,
    Peaks,
    Ppm,
    Da,
    PpmCalc,
    Alphabet,
    Adduct,
    Rules,
    Formula,
    Coverage,
    Limit,
    After,
    Peak,
    Turn,
    Turns,
    Certificate,
    Number,
    Json,
}

/// What the value of an option is, with the least and the greatest number.
#[derive(Clone, Copy, Debug, PartialEq, Eq)]
pub(crate) enum ValueKind {
    /// A file name or a text of any form.
    Text,
    /// A decimal number of Da, in 10^-12 Da.
    Daltons { low: u64, high: u64 },
    /// A decimal number of ppm, in 10^-3 ppm.
    Ppm { low: u64, high: u64 },
    /// A decimal number, in 10^-18.
    Fraction { low: u64, high: u64 },
    /// A whole number.
    Whole { low: u64, high: u64 },
}

/// A row of the table of options.
#[derive(Clone, Copy, Debug, PartialEq, Eq)]
struct OptionRow {
    /// The option as it is written.
    word: &'static str,
    /// The same without its hyphens.
    name: &'static str,
    kind: ValueKind,
}

impl OptionRow {
    fn of(word: &'static str, name: &'static str, kind: ValueKind) -> OptionRow
        ensures { (result.word ≡ word.entry) × (result.name ≡ name.entry) × (result.kind ≡ kind) }
    {
        OptionRow { word, name, kind }
    }
}

const MZ: ValueKind = ValueKind::Daltons {
    low: MIN_MZ,
    high: MAX_MZ,
};

const DISTANCE: ValueKind = ValueKind::Daltons {
    low: 0,
    high: MAX_DA,
};

const PPM: ValueKind = ValueKind::Ppm {
    low: 0,
    high: MAX_PPM,
};

const COVERAGE: ValueKind = ValueKind::Fraction {
    low: MIN_COVERAGE,
    high: MAX_COVERAGE,
};

const LIMIT: ValueKind = ValueKind::Whole {
    low: MIN_LIMIT,
    high: MAX_LIMIT,
};

const PEAK: ValueKind = ValueKind::Whole {
    low: MIN_PEAK,
    high: MAX_PEAK,
};

const TURN: ValueKind = ValueKind::Whole {
    low: MIN_TURN,
    high: MAX_TURN,
};

const TURNS: ValueKind = ValueKind::Whole {
    low: 0,
    high: MAX_TURNS,
};

const NUMBER: ValueKind = ValueKind::Whole {
    low: 0,
    high: MAX_NUMBER,
};

const OPTIONS: [OptionName; OPTION_COUNT as usize] = [
    OptionName::Table,
    OptionName::Tracer,
    OptionName::Mass,
    OptionName::Peaks,
    OptionName::Ppm,
    OptionName::Da,
    OptionName::PpmCalc,
    OptionName::Alphabet,
    OptionName::Adduct,
    OptionName::Rules,
    OptionName::Formula,
    OptionName::Coverage,
    OptionName::Limit,
    OptionName::After,
    OptionName::Peak,
    OptionName::Turn,
    OptionName::Turns,
    OptionName::Certificate,
    OptionName::Number,
    OptionName::Json,
];

impl OptionName {
    /// The table of options.
    fn row(self) -> OptionRow
        ensures { (result.word.now ≡ word self) × (result.name.now ≡ name self) × (result.kind ≡ kind self) }
    {
        match self {
            OptionName::Table => OptionRow::of("--table", "table", ValueKind::Text),
            OptionName::Tracer => OptionRow::of("--tracer", "tracer", ValueKind::Text),
            OptionName::Mass => OptionRow::of("--mass", "mass", MZ),
            OptionName::Peaks => OptionRow::of("--peaks", "peaks", ValueKind::Text),
            OptionName::Ppm => OptionRow::of("--ppm", "ppm", PPM),
            OptionName::Da => OptionRow::of("--da", "da", DISTANCE),
            OptionName::PpmCalc => OptionRow::of("--ppm-calc", "ppm-calc", PPM),
            OptionName::Alphabet => OptionRow::of("--alphabet", "alphabet", ValueKind::Text),
            OptionName::Adduct => OptionRow::of("--adduct", "adduct", ValueKind::Text),
            OptionName::Rules => OptionRow::of("--rules", "rules", ValueKind::Text),
            OptionName::Formula => OptionRow::of("--formula", "formula", ValueKind::Text),
            OptionName::Coverage => OptionRow::of("--coverage", "coverage", COVERAGE),
            OptionName::Limit => OptionRow::of("--limit", "limit", LIMIT),
            OptionName::After => OptionRow::of("--after", "after", ValueKind::Text),
            OptionName::Peak => OptionRow::of("--peak", "peak", PEAK),
            OptionName::Turn => OptionRow::of("--turn", "turn", TURN),
            OptionName::Turns => OptionRow::of("--turns", "turns", TURNS),
            OptionName::Certificate => {
                OptionRow::of("--certificate", "certificate", ValueKind::Text)
            }
            OptionName::Number => OptionRow::of("--number", "number", NUMBER),
            OptionName::Json => OptionRow::of("--json", "json", ValueKind::Text),
        }
    }

    /// The option without its hyphens.
    pub(crate) fn name(self) -> &'static str
        ensures { result.now ≡ name self }
    {
        self.row().name
    }

    /// What its value is, where it isn't a flag.
    pub(crate) fn kind(self) -> ValueKind
        ensures { result ≡ kind self }
    {
        self.row().kind
    }

    /// The text that stands for an option which isn't given.
    pub(crate) fn default_text(self) -> Option<&'static str>
        ensures { option_map (λ text. text.now) result ≡ default_text self }
    {
        match self {
            OptionName::Adduct => Some("M"),
            OptionName::Rules => Some("none"),
            _ => None,
        }
    }

    /// The number that stands for an option which isn't given.
    pub(crate) fn default_number(self) -> Option<u64>
        ensures { result ≡ default_number self }
    {
        match self {
            OptionName::Turn => Some(DEFAULT_TURN),
            _ => None,
        }
    }

    /// The option without which this one isn't asked.
    pub(crate) fn companion(self) -> Option<OptionName>
        ensures { result ≡ companion self }
    {
        match self {
            OptionName::Limit | OptionName::After => Some(OptionName::Mass),
            _ => None,
        }
    }

    /// Its place in the table, from 1.
    pub(crate) fn number(self) -> u32
        ensures { result ≡ number self }
    {
        self as u32 + 1
    }
}

/// The option of this number, if the table has it.
fn option_of(place: u32) -> Option<OptionName>
    ensures { result ≡ find (λ option. number option == place) option_table }
{
    OPTIONS
        .iter()
        .copied()
        .find(|option| option.number() == place)
}

/// The option of this number as it is written, as `--mass` for 3, and nothing for a number that the table hasn't.
pub fn option_name(option: u32) -> &'static str
    ensures { result.now ≡ option_word option }
{
    match option_of(option) {
        Some(of) => of.row().word,
        None => "",
    }
}
