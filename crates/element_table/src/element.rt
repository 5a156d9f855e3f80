//! An element and its isotopes.

ghost use Rattle.std.specs.Prelude.{◌≡◌, ◌≤◌, ◌<◌, ◌+◌, [], ◌∷◌, IfOk, All, length, map, position};
ghost use Rattle.std.specs.List.{Contains};
ghost use Rattle.std.specs.Option.{option_copied};
ghost use Rattle.reader_answers.specs.Answers.{GivesAs, unless_fault};
ghost use Rattle.element_table.specs.Elements.{IsElement, IsIsotope, is_greatest, isotope_of, reference_isotope};
ghost use Rattle.element_table.specs.Elements.{reference_place, total_weight};
ghost use Rattle.element_table.specs.TableRows.{element_with};
ghost use Rattle.element_table.specs.Gathering.{IsIsotopeRow, isotope_fault, with_isotope};
ghost use Rattle.element_table.specs.ReadRow.{AreTracerRows};
ghost use Rattle.element_table.specs.TableFaults.{is_memory};
ghost use Rattle.element_table.specs.Tracers.{traced_isotope};

use crate::fault::TableFault;
use crate::limits::MAX_ISOTOPES;
use crate::symbol::Symbol;
use crate::tracer::{TracerRow, traced_isotopes};
use std::alloc::{AllocError, Global};
use std::marker::Model;

/// An isotope of an element.
#[derive(Clone, Copy, Debug, PartialEq, Eq)]
pub struct Isotope {
    /// The mass number, 1 to 400.
    pub number: u32,
    /// The mass in 10^-12 Da, 0.5 to 400 Da.
    pub mass: u64,
    /// The abundance in units of 10^-12, at most 1.
    pub weight: u64,
}

/// An element of a table, with its isotopes by rising mass number.
#[derive(Debug, Drop)]
pub struct Element {
    symbol: Symbol,
    valence: u32,
    isotopes: Vec<Isotope>,
    // The place of the reference isotope: by the weights of the table file, also where a tracer gave others.
    reference: usize,
}

impl Model for Element {
    ghost use Rattle.reader_answers.specs.Answers.{GivesAs, unless_fault};
    ghost use Rattle.element_table.specs.Elements.{ElementEntry, IsElement};

    ghost Value = { ElementEntry };

    ghost view = { λ e. record {
      symbol = e.symbol;
      valence = e.valence;
      isotopes = e.isotopes.items;
      reference = e.reference;
    } };

    ghost invariant = { λ e. IsElement (record {
      symbol = e.symbol;
      valence = e.valence;
      isotopes = e.isotopes.items;
      reference = e.reference;
    }) };
}

impl Element {
    /// An element with its first isotope.
    pub(crate) fn new(
        alloc: Global,
        symbol: Symbol,
        valence: u32,
        isotope: Isotope,
    ) -> Result<Element, AllocError>
        requires { IsIsotopeRow symbol valence isotope }
        ensures entry { IfOk result (λ e. e ≡ element_with symbol valence (isotope ∷ [])) }
        ensures element { IfOk result (λ e. IsElement e) }
    {
        let mut isotopes = Vec::new(alloc);
        isotopes.push(isotope)?;
        let reference = reference_place(&isotopes);
        Ok(Element {
            symbol,
            valence,
            isotopes,
            reference,
        })
    }

    /// Takes in one more isotope, which the record of this number has with this valence.
    pub(crate) fn add(
        &mut self,
        record_number: u64,
        valence: u32,
        isotope: Isotope,
    ) -> Result<(), TableFault>
        requires { IsIsotope isotope }
        ensures added { GivesAs (λ _. self.new) is_memory result
            (unless_fault (isotope_fault record_number self.old valence isotope) (Ok (with_isotope self.old isotope))) }
        ensures symbol { self.new.symbol ≡ self.old.symbol }
        ensures element { IsElement self.new }
    {
        if self.valence != valence {
            return Err(TableFault::Valence { row: record_number });
        }
        match self
            .isotopes
            .binary_search_by_key(&isotope.number, |other| other.number)
        {
            Ok(_) => Err(TableFault::Repeated { row: record_number }),
            Err(_) if self.isotopes.len() == MAX_ISOTOPES => {
                Err(TableFault::TooManyIsotopes { row: record_number })
            }
            Err(place) => {
                self.isotopes.insert(place, isotope)?;
                self.reference = reference_place(&self.isotopes);
                Ok(())
            }
        }
    }

    /// The element with the weights of a tracer's rows, 0 for each isotope that they don't have. Its reference isotope
    /// stays the same.
    pub(crate) fn with_weights(&self, rows: &[TracerRow]) -> Result<Element, AllocError>
        requires { AreTracerRows rows.now }
        ensures entry { IfOk result (λ e.
            e ≡ record self.now { isotopes = map (traced_isotope rows.now self.now.symbol) self.now.isotopes }) }
    {
        let isotopes = traced_isotopes(rows, self.symbol, &self.isotopes)?;
        Ok(Element {
            symbol: self.symbol,
            valence: self.valence,
            isotopes,
            reference: self.reference,
        })
    }

    /// The element's symbol.
    pub fn symbol(&self) -> Symbol
        ensures symbol { result ≡ self.now.symbol }
        ensures element { IsElement self.now }
    {
        self.symbol
    }

    /// The number of bonds that an atom takes part in, 0 to 8.
    pub fn valence(&self) -> u32
        ensures valence { result ≡ self.now.valence }
        ensures element { IsElement self.now }
    {
        self.valence
    }

    /// The isotopes by rising mass number, those of abundance 0 included.
    pub fn isotopes(&self) -> &[Isotope]
        ensures isotopes { result.now ≡ self.now.isotopes }
        ensures element { IsElement self.now }
    {
        &self.isotopes
    }

    /// The reference isotope: the one of greatest abundance in the table file, the one of the lowest mass number where
    /// several have it. A tracer changes its weight, and not which isotope it is. An atom of the element has its mass.
    pub fn reference(&self) -> &Isotope
        ensures reference { result.now ≡ reference_isotope self.now }
        ensures among { Contains self.now.isotopes result.now }
        ensures isotope { IsIsotope result.now }
        ensures element { IsElement self.now }
    {
        &self.isotopes[self.reference]
    }

    /// The sum of the weights, in units of 10^-12. It is above 0 where the element is one of a table.
    pub fn total(&self) -> u64
        ensures total { result ≡ total_weight self.now.isotopes }
        ensures element { IsElement self.now }
    {
        let mut total = 0;
        for isotope in &self.isotopes {
            total += isotope.weight;
        }
        total
    }

    /// The isotope of this mass number, `None` exactly where the element has none.
    pub fn isotope(&self, number: u32) -> Option<&Isotope>
        ensures isotope { option_copied result ≡ isotope_of self.now.isotopes number }
        ensures element { IsElement self.now }
    {
        self.isotopes.iter().find(|i| i.number == number)
    }
}

impl Clone for Element {
    ghost is_clone = { λ e copy. copy ≡ e };

    fn clone(&self) -> Result<Element, AllocError> {
        Ok(Element {
            symbol: self.symbol,
            valence: self.valence,
            isotopes: self.isotopes.clone()?,
            reference: self.reference,
        })
    }
}

/// The place of the first isotope than which none has a greater weight.
fn reference_place(isotopes: &[Isotope]) -> usize
    ensures { result ≡ reference_place isotopes.now }
{
    greatest_place(isotopes).unwrap_or(0)
}

/// The same, `None` where there is no isotope.
fn greatest_place(isotopes: &[Isotope]) -> Option<usize>
    ensures { result ≡ position (is_greatest isotopes.now) isotopes.now }
{
    isotopes
        .iter()
        .position(|isotope| is_greatest(isotopes, isotope))
}

/// Whether no isotope has a greater weight than this one.
fn is_greatest(isotopes: &[Isotope], isotope: &Isotope) -> bool
    ensures { result ≡ is_greatest isotopes.now isotope.now }
{
    isotopes.iter().all(|other| other.weight <= isotope.weight)
}
