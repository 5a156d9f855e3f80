//! The reports of the program: their lines, and the same entries as one line of JSON.
//!
//! The lines of formulas and of covers are those of `report_lines`, which this crate gives out; those of ranked peaks
//! are its own. A [`Report`] gathers
//! the entries of a report as the texts and numbers that are printed, and [`json_text`] writes it by `serde_json`.
//!
//! The crate stands on `report_lines` for the texts, on `serde` and `serde_json` for JSON, and on `formula_text`,
//! `adducts`, `element_table`, `cover_certificate` and `ranking` for what is printed.
#![tactic(auto)]

mod decompose_entries;
mod entries;
mod envelope_entries;
mod member;
mod rank;
mod rank_entries;
mod report;
mod text;

pub use rank::{
    job_line, place_line, push_job_line, push_place_line, push_rank_head, push_rank_text,
    rank_head, rank_text,
};
pub use report::{Report, json_text};
pub use report_lines::{
    decompose_head, decompose_line, envelope_head, envelope_text, isotopologue_line, peak_line,
    push_decompose_head, push_decompose_line, push_envelope_head, push_envelope_text,
    push_isotopologue_line, push_peak_line,
};

#[cfg(test)]
mod tests;
