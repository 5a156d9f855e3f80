//! Hill's order of the items of a formula (E. A. Hill, J. Am. Chem. Soc. 22 (1900) 478).
ghost use Rattle.std.specs.Prelude.{◌≡◌, IsTrue};
ghost use Rattle.std.specs.Str.{bytes_eq};
ghost use Rattle.element_table.specs.SymbolText.{is_symbol};
ghost use Rattle.formula_text.specs.HillOrder.{carbon_symbol, hill_rank, hill_cmp};
ghost use Rattle.formula_text.specs.Formulas.{has_carbon};

use element_table::Symbol;
use std::cmp::Ordering;
use written_items::Item;

/// Whether this is the symbol of carbon.
fn is_carbon(symbol: &Symbol) -> bool
    ensures { result ≡ bytes_eq symbol.now carbon_symbol }
{
    symbol.text() == b"C".as_slice()
}

/// Whether an atom of carbon is among the parts.
pub fn has_carbon(parts: &[(Item, u32)]) -> bool
    ensures { result ≡ has_carbon parts.now }
{
    parts
        .iter()
        .any(|(item, count)| is_carbon(&item.symbol) && *count > 0)
}

/// The rank of a symbol in Hill's order; `carbon` says whether the formula has an atom of carbon.
pub fn hill_rank(carbon: bool, symbol: &Symbol) -> u8
    ensures rank { result ≡ hill_rank carbon symbol.now }
    ensures symbol { IsTrue (is_symbol symbol.now) }
{
    let letters = symbol.text();
    if carbon && letters == b"C".as_slice() {
        0
    } else if carbon && letters == b"H".as_slice() {
        1
    } else {
        2
    }
}

/// Compares an item whose symbol has this rank with another in Hill's order.
pub fn hill_cmp(carbon: bool, rank: u8, item: &Item, other: &Item) -> Ordering
    requires { rank ≡ hill_rank carbon item.now.symbol }
    ensures { result ≡ hill_cmp carbon item.now other.now }
{
    rank.cmp(&hill_rank(carbon, &other.symbol))
        .then(item.symbol.text().cmp(other.symbol.text()))
        .then(item.label.cmp(&other.label))
}
