//! The lines of the program's reports.
//!
//! A line is words with one space between them, and a line feed. Each call gives the bytes of one line, or of the
//! lines of one report, either as a text of its own or, by the calls that begin with `push`, behind those of a text
//! that is used again. Numbers and masses are printed on the stack, so a line takes memory for its own bytes alone.
//! Without room for a line the text stays as it was.
//!
//! The crate stands on `formula_text`, `adducts`, `element_table` and `cover_certificate` for what is printed, and on
//! `written_items`, `itoa` and the definition of decimal texts of `fixed_decimal` for how it is printed. The program
//! puts the lines one by one.
#![tactic(auto)]

mod check;
mod decompose;
mod envelope;
mod formula;
mod line;
mod word;
mod written;

pub use check::push_accepted_line;
pub use decompose::{
    decompose_head, decompose_line, formula_line, mass_difference, peak_line, push_decompose_head,
    push_decompose_line, push_formula_line, push_items_line, push_peak_line,
};
pub use envelope::{
    envelope_head, envelope_text, isotopologue_line, numbered_head, push_envelope_head,
    push_envelope_text, push_isotopologue_line, push_isotopologue_words,
};
pub use line::{cut_unless_pushed, push_line};
pub use word::{Word, ion_mass_word, push_word};

#[cfg(test)]
mod tests;
