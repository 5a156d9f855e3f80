//! What the words can ask for.

use crate::word::Word;
use mass_scaling::Tolerance;

/// What the words of the command line ask for, with one field for each option of the command, and one for the
/// options of tolerance.
#[derive(Debug, Drop)]
pub enum Request {
    /// The formulas of a measured mass, or of each peak of a file: one of the two is given.
    Decompose {
        /// The name of the table file.
        table: Word,
        /// The m/z, or the mass for the neutral adduct, in 10^-12 Da, from [`MIN_MZ`](crate::MIN_MZ) to
        /// [`MAX_MZ`](mass_scaling::MAX_MZ).
        mass: Option<u64>,
        /// The name of the file of peaks.
        peaks: Option<Word>,
        /// How far an ion's mass may be from the measured one: at most [`MAX_PPM`](mass_scaling::MAX_PPM) or
        /// [`MAX_DA`](mass_scaling::MAX_DA).
        tolerance: Tolerance,
        /// The text of the alphabet.
        alphabet: Word,
        /// The text of the adduct; `M`, the neutral one, where none is given.
        adduct: Word,
        /// `none`, also where no rules are given, `golden`, or the name of a file of rules.
        rules: Word,
        /// How many candidates are asked for, from [`MIN_LIMIT`](crate::MIN_LIMIT) to
        /// [`MAX_LIMIT`](crate::MAX_LIMIT). It is given only beside a mass.
        limit: Option<u64>,
        /// The text of the formula behind which the candidates begin. It is given only beside a mass.
        after: Option<Word>,
        /// Whether the report is asked for as JSON.
        json: bool,
    },
    /// The likeliest isotopologues of one formula.
    Envelope {
        /// The name of the table file.
        table: Word,
        /// The name of the tracer file.
        tracer: Option<Word>,
        /// The text of the adduct; `M`, the neutral one, where none is given.
        adduct: Word,
        /// The text of the formula.
        formula: Word,
        /// The wanted coverage, in 10^-18, from [`MIN_COVERAGE`](crate::MIN_COVERAGE) to
        /// [`MAX_COVERAGE`](crate::MAX_COVERAGE).
        coverage: u64,
        /// Whether the certificate is asked for.
        certificate: bool,
        /// Whether the report is asked for as JSON; the certificate isn't then.
        json: bool,
    },
    /// The formulas of the peaks of a file, the likeliest first.
    Rank {
        /// The name of the table file.
        table: Word,
        /// The name of the tracer file.
        tracer: Option<Word>,
        /// The name of the file of peaks.
        peaks: Word,
        /// How far an ion's mass may be from the measured one: at most [`MAX_PPM`](mass_scaling::MAX_PPM) or
        /// [`MAX_DA`](mass_scaling::MAX_DA).
        tolerance: Tolerance,
        /// The text of the alphabet.
        alphabet: Word,
        /// The text of the adduct; `M`, the neutral one, where none is given.
        adduct: Word,
        /// `none`, also where no rules are given, `golden`, or the name of a file of rules.
        rules: Word,
        /// The wanted coverage, in 10^-18, from [`MIN_COVERAGE`](crate::MIN_COVERAGE) to
        /// [`MAX_COVERAGE`](crate::MAX_COVERAGE).
        coverage: u64,
        /// The number of the one peak that is ranked, from [`MIN_PEAK`](crate::MIN_PEAK) to
        /// [`MAX_PEAK`](crate::MAX_PEAK); all are where it is absent.
        peak: Option<u64>,
        /// The allowance of a turn, from [`MIN_TURN`](crate::MIN_TURN) to [`MAX_TURN`](crate::MAX_TURN);
        /// [`DEFAULT_TURN`](crate::DEFAULT_TURN) where none is given.
        turn: u64,
        /// After how many turns the report is printed, at most [`MAX_TURNS`](crate::MAX_TURNS); once all peaks are
        /// done where it is absent.
        turns: Option<u64>,
        /// Whether the report is asked for as JSON.
        json: bool,
    },
    /// Whether a certificate is right.
    Check {
        /// The name of the table file.
        table: Word,
        /// The name of the tracer file.
        tracer: Option<Word>,
        /// The name of the certificate file.
        certificate: Word,
    },
    /// The ranking of made peaks.
    Generate {
        /// The name of the table file.
        table: Word,
        /// What the generator begins with, at most [`MAX_NUMBER`](crate::MAX_NUMBER).
        number: u64,
    },
}
