//! The table of elements.

ghost use Rattle.std.specs.Prelude.{◌≡◌, IfOk};
ghost use Rattle.reader_answers.specs.Answers.{Gives};
ghost use Rattle.std.specs.Option.{option_copied};
ghost use Rattle.element_table.specs.Elements.{IsTable, element_of};
ghost use Rattle.element_table.specs.TracerFaults.{is_memory};
ghost use Rattle.element_table.specs.Tracers.{DifferInWeights, traced};

use crate::element::Element;
use crate::symbol::Symbol;
use crate::tracer;
use crate::tracer_fault::TracerFault;
use csv_records::Records;
use std::alloc::{AllocError, Global};
use std::marker::Model;

/// The elements that a table file lists, in the order of their first records, and the electron.
#[derive(Debug, Drop)]
pub struct Table {
    electron: u64,
    elements: Vec<Element>,
}

impl Model for Table {
    ghost use Rattle.element_table.specs.Elements.{IsTable, TableEntries};

    ghost Value = { TableEntries };

    ghost view = { λ t. record { electron = t.electron; elements = t.elements.items } };

    ghost invariant = { λ t. IsTable (record { electron = t.electron; elements = t.elements.items }) };
}

impl Table {
    /// The table of an electron and elements within the limits.
    pub(crate) fn new(electron: u64, elements: Vec<Element>) -> Table
        requires { IsTable (record { electron = electron; elements = elements.items }) }
        ensures { result ≡ record { electron = electron; elements = elements.items } }
    {
        Table { electron, elements }
    }

    /// The allocator of the elements.
    pub(crate) fn allocator(&self) -> Global {
        *self.elements.allocator()
    }

    /// The elements in the order of their first records.
    pub fn elements(&self) -> &[Element]
        ensures elements { result.now ≡ self.now.elements }
        ensures table { IsTable self.now }
    {
        &self.elements
    }

    /// The mass of the electron in 10^-12 Da.
    pub fn electron(&self) -> u64
        ensures electron { result ≡ self.now.electron }
        ensures table { IsTable self.now }
    {
        self.electron
    }

    /// The element of this symbol, `None` exactly where the table has none.
    pub fn element(&self, symbol: Symbol) -> Option<&Element>
        ensures element { option_copied result ≡ element_of self.now symbol }
        ensures table { IsTable self.now }
    {
        self.elements.iter().find(|e| e.symbol() == symbol)
    }

    /// The table with the weights of a tracer file: a CSV file whose first record is the header
    /// `symbol,number,abundance12`, and in which each further record gives an isotope of the table a weight. An
    /// element that the file names has the weight 0 for each isotope that the file doesn't name. All else stays,
    /// the reference isotopes too, so that no mass of a formula changes.
    ///
    /// The fault is the first one in the order of the records, and in a record the first in the order
    /// of [`TracerFault`]; an element that is left without weight comes after all records.
    pub fn traced(&self, bytes: &[u8]) -> Result<Table, TracerFault>
        ensures table { Gives is_memory result (traced self.now bytes.now) }
        ensures kept { IfOk result (λ table. DifferInWeights self.now table) }
    {
        let records = Records::read(self.allocator(), bytes)?;
        let rows = tracer::read_rows(self, &records)?;
        let elements = tracer::traced_elements(&rows, &self.elements)?;
        match tracer::weightless_element(&rows, &elements) {
            Some(element) => Err(TracerFault::NoWeight {
                symbol: element.symbol(),
            }),
            None => Ok(Table::new(self.electron, elements)),
        }
    }
}

impl Clone for Table {
    ghost is_clone = { λ table copy. copy ≡ table };

    fn clone(&self) -> Result<Table, AllocError> {
        Ok(Table {
            electron: self.electron,
            elements: self.elements.clone()?,
        })
    }
}
