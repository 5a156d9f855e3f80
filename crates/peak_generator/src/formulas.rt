//! The formulas that a number makes.
ghost use Rattle.std.specs.Prelude.{◌≡◌, ◌<◌, ◌≤◌, ◌^◌, ℕ, All, IfOk, IsTrue, length};
ghost use Rattle.element_table.specs.Elements.{TableEntries};
ghost use Rattle.element_table.specs.SymbolText.{is_symbol};
ghost use Rattle.formula_text.specs.Masses.{HasItems};
ghost use Rattle.peak_generator.specs.Draws.{state_after};
ghost use Rattle.peak_generator.specs.MadeFormulas.{counts_of_draws, element, element_counts, made_counts};
ghost use Rattle.peak_generator.specs.MadeFormulas.{made_formula, made_formulas};

use crate::draws::{Draws, MAX_NUMBER};
use element_table::Symbol;
use formula_text::Formula;
use std::alloc::{AllocError, Global};
use written_items::Item;

/// The formulas of the first `count` peaks that a number makes, in the order made.
///
/// Of the four draws `e`, `f`, `g`, `h` of a peak, in this order, its formula has `c = 1 + e mod 30` atoms of carbon,
/// `c + f mod (c + 3)` of hydrogen, `g mod 4` of nitrogen and `h mod 8` of oxygen.
pub fn made_formulas(alloc: Global, number: u64, count: u64) -> Result<Vec<Formula>, AllocError>
    requires { number ≤ MAX_NUMBER }
    ensures formulas { IfOk result (λ formulas. formulas.items ≡ made_formulas number count) }
    ensures count { IfOk result (λ formulas. length formulas.items ≡ count) }

    // A table that has carbon, hydrogen, nitrogen and oxygen has the items of each.
    ensures known { IfOk result (λ formulas. (table : TableEntries) →
        HasItems table (element_counts 1 1 1 1) → All (HasItems table) formulas.items) }
{
    let mut draws = Draws::of(number);
    let mut formulas = Vec::new(alloc);
    for _ in 0..count {
        formulas.push(made_formula(alloc, &mut draws)?)?;
    }
    Ok(formulas)
}

/// The formula of the next four draws.
fn made_formula(alloc: Global, draws: &mut Draws) -> Result<Formula, AllocError>
    ensures formula { IfOk result (λ formula. formula ≡ made_formula draws.old 0) }
    ensures state { draws.new ≡ state_after draws.old 4 }
    ensures known { IfOk result (λ formula. (table : TableEntries) →
        HasItems table (element_counts 1 1 1 1) → HasItems table formula) }
{
    let counts = made_counts(draws);
    match Formula::of(alloc, &counts)? {
        Some(formula) => Ok(formula),
        None => unreachable!(),
    }
}

/// The counts of the next four draws.
fn made_counts(draws: &mut Draws) -> [(Item, u32); 4]
    ensures counts { result ≡ made_counts draws.old 0 }
    ensures state { draws.new ≡ state_after draws.old 4 }
{
    let e = draws.draw();
    let f = draws.draw();
    let g = draws.draw();
    let h = draws.draw();
    counts_of_draws(e, f, g, h)
}

/// The counts that four draws make.
fn counts_of_draws(e: u32, f: u32, g: u32, h: u32) -> [(Item, u32); 4]
    ensures { result ≡ counts_of_draws e f g h }
{
    let carbon = 1 + e % 30;
    let hydrogen = carbon + f % (carbon + 3);
    [
        (element(b"C"), carbon),
        (element(b"H"), hydrogen),
        (element(b"N"), g % 4),
        (element(b"O"), h % 8),
    ]
}

/// The item of an element.
fn element(symbol: &[u8]) -> Item
    requires { IsTrue (is_symbol symbol.now) }
    ensures { result ≡ element symbol.now }
{
    match Symbol::of(symbol) {
        Some(symbol) => Item { symbol, label: 0 },
        None => unreachable!(),
    }
}
