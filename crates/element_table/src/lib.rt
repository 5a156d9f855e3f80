//! The table of elements and isotopes that every computation stands on.
//!
//! A [`Table`] is seen by contracts as its electron's mass and its list of elements, an [`Element`]
//! as its symbol's letters, its valence, its isotopes by rising mass number and the place of its reference
//! isotope among them, and a [`Symbol`] as its letters.
//!
//! The crate stands on `csv_records` for the records of a file, on `fixed_decimal` for their numbers, on
//! `reader_answers` for the form of their answers, on `sorted_lists` for the order of isotopes, and on `indexmap` and
//! `thiserror`. The layers above read the
//! bytes of a table file by [`read_table`], which gives the table or the first fault and its record, give it the
//! weights of a tracer file by [`Table::traced`], and look up elements by symbol and isotopes by mass number.
#![tactic(auto)]

mod element;
mod fault;
mod gathering;
mod limits;
mod reading;
mod row;
mod symbol;
mod table;
mod tracer;
mod tracer_fault;

pub use element::{Element, Isotope};
pub use fault::TableFault;
pub use limits::{
    FULL_ABUNDANCE, MAX_ELECTRON_MASS, MAX_ELEMENTS, MAX_ISOTOPE_MASS, MAX_ISOTOPES,
    MAX_MASS_NUMBER, MAX_VALENCE, MIN_ELECTRON_MASS, MIN_ISOTOPE_MASS,
};
pub use reading::read_table;
pub use symbol::Symbol;
pub use table::Table;
pub use tracer_fault::TracerFault;

#[cfg(test)]
mod tests;
