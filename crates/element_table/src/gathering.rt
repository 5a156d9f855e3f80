//! What the records of a table file say together, gathered record by record.

ghost use Rattle.std.specs.Prelude.{◌≡◌, ℕ, ◌≤◌, [], None, All, map, length, IfOk};
ghost use Rattle.std.specs.Option.{option_copied};
ghost use Rattle.std.specs.Str.{bytes_eq};
ghost use Rattle.indexmap.specs.IndexMap.{keys, values};
ghost use Rattle.element_table.specs.Elements.{IsElement, IsTable};
ghost use Rattle.element_table.specs.TableRows.{table_from, weightless_element};
ghost use Rattle.reader_answers.specs.Answers.{Gives, GivesAs, unless_fault};
ghost use Rattle.element_table.specs.TableFaults.{is_memory};
ghost use Rattle.element_table.specs.Gathering.{IsIsotopeRow, IsTableRow, AreElements, fault_in, row_entry, with_row};
ghost use Rattle.element_table.specs.Gathering.{fault_among, with_isotope_of};

use crate::element::{Element, Isotope};
use crate::fault::TableFault;
use crate::limits::MAX_ELEMENTS;
use crate::row::TableRow;
use crate::symbol::Symbol;
use crate::table::Table;
use indexmap::IndexMap;
use std::alloc::Global;
use std::marker::Model;

/// What the records read so far say: the electron's mass, and the elements by their symbols in the
/// order of their first records.
#[derive(Drop)]
pub(crate) struct Gathered {
    electron: Option<u64>,
    elements: IndexMap<Symbol, Element>,
}

impl Model for Gathered {
    ghost use Rattle.indexmap.specs.IndexMap.{keys, values};
    ghost use Rattle.element_table.specs.Gathering.{GatheredEntries, IsGathered};

    ghost Value = { GatheredEntries };

    ghost view = { λ g. record { electron = g.electron; elements = values g.elements } };

    ghost invariant = { λ g. IsGathered g.electron (keys g.elements) (values g.elements) };
}

impl Gathered {
    /// Nothing yet.
    pub(crate) fn new(alloc: Global) -> Self
        ensures { result ≡ record { electron = None; elements = [] } }
    {
        Gathered {
            electron: None,
            elements: IndexMap::new(alloc),
        }
    }

    /// Takes in the row of the record of this number.
    pub(crate) fn add(&mut self, record_number: u64, row: TableRow) -> Result<(), TableFault>
        requires { IsTableRow row }
        ensures { GivesAs (λ _. self.new) is_memory result
            (unless_fault (fault_in record_number self.old (row_entry row)) (Ok (with_row self.old (row_entry row)))) }
    {
        match row {
            TableRow::Electron { mass } => {
                if self.electron.is_some() {
                    return Err(TableFault::Repeated { row: record_number });
                }
                self.electron = Some(mass);
                Ok(())
            }
            TableRow::OfIsotope {
                symbol,
                valence,
                isotope,
            } => add_isotope(&mut self.elements, record_number, symbol, valence, isotope),
        }
    }

    /// The table of all rows.
    pub(crate) fn into_table(self, alloc: Global) -> Result<Table, TableFault>
        ensures table { Gives is_memory result (table_from self.electron self.elements) }
        ensures within { IfOk result IsTable }
    {
        let Gathered { electron, elements } = self;
        let electron = electron.ok_or(TableFault::NoElectron)?;
        let elements: Vec<Element> = elements.into_values().collect(alloc)?;
        match weightless_element(&elements) {
            Some(element) => Err(TableFault::NoWeight {
                symbol: element.symbol(),
            }),
            None => Ok(Table::new(electron, elements)),
        }
    }
}

/// The first element of which no isotope occurs.
fn weightless_element(elements: &[Element]) -> Option<&Element>
    ensures { option_copied result ≡ weightless_element elements.now }
{
    elements.iter().find(|element| element.total() == 0)
}

/// Takes in an isotope of the element of this symbol, which the record of this number has with
/// this valence.
fn add_isotope(
    elements: &mut IndexMap<Symbol, Element>,
    record_number: u64,
    symbol: Symbol,
    valence: u32,
    isotope: Isotope,
) -> Result<(), TableFault>
    requires row { IsIsotopeRow symbol valence isotope }
    requires symbols { keys elements.old ≡ map (λ e. e.symbol) (values elements.old) }
    requires elements { AreElements (values elements.old) }
    ensures added { GivesAs (λ _. values elements.new) is_memory result
        (unless_fault (fault_among record_number (values elements.old) symbol valence isotope)
        (Ok (with_isotope_of (values elements.old) symbol valence isotope))) }
    ensures symbols { keys elements.new ≡ map (λ e. e.symbol) (values elements.new) }
    ensures elements { AreElements (values elements.new) }
{
    if let Some(element) = elements.get_mut(&symbol) {
        return element.add(record_number, valence, isotope);
    }
    if elements.len() == MAX_ELEMENTS {
        return Err(TableFault::TooManyElements { row: record_number });
    }
    let element = Element::new(*elements.allocator(), symbol, valence, isotope)?;
    elements.insert(symbol, element)?;
    Ok(())
}
