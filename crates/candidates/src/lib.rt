//! The candidates of a peak: the formulas of an alphabet whose ion is within tolerance of an m/z and which meet the
//! rules.
//!
//! A [`Ground`] holds what the candidates of all peaks have in common, and contracts see its table, alphabet, adduct,
//! tolerance and rules. A [`Candidates`] goes over the candidates of one peak in lexicographic order of their counts,
//! small counts first; contracts see its ground, its m/z and the count list given last. [`CountLists`] keeps the counts of
//! many candidates, seen as the list of them.
//!
//! The crate stands on `decompose` for count lists in a window of mass, on `mass_scaling` for windows and tolerances, on
//! `adducts` for ions, on `golden_rules` for rules, on `alphabet_text` for alphabets, on `formula_text`,
//! `written_items` and `element_table` for formulas, on `report_lines` for their lines, and on `outside_ports` for the
//! counter of steps.
#![tactic(auto)]

mod candidates;
mod count_lists;
mod grounds;
mod hill;
mod line;
mod search;

pub use candidates::Candidates;
pub use count_lists::CountLists;
pub use decompose::ResumeFault;
pub use grounds::Ground;
pub use line::{ItemRoom, item_room, push_line};

#[cfg(test)]
mod tests;
