//! How many isotopologues there are, without listing them.

ghost use Rattle.std.specs.Prelude.{◌≡◌, ◌≤◌, SomeIff, length};
ghost use Rattle.multinomial_bounds.specs.Compositions.{compositions, isotopologue_count};

use isotopologue_sets::ElementAtoms;
use multinomial_bounds::MAX_ATOMS;

/// How many isotopologues the elements have together. None exactly where there are more than `most`.
pub fn count_up_to(elements: &[ElementAtoms], most: u64) -> Option<u64>
    ensures { SomeIff result (isotopologue_count elements.now ≤ most) (isotopologue_count elements.now) }
{
    let mut total = at_most(1, most);
    for element in elements {
        let counts = compositions_up_to(element.weights().len(), element.atoms(), most);
        total = match (total, counts) {
            (Some(total), Some(counts)) => at_most(u128::from(total) * u128::from(counts), most),
            _ => None,
        };
    }
    total
}

// How many counts of so many isotopes sum to so many atoms, which is a binomial coefficient: of the
// atoms and the isotopes but one together, over the isotopes but one. None exactly where there are more
// than `most`.
fn compositions_up_to(isotopes: usize, atoms: u32, most: u64) -> Option<u64>
    requires some { 1 ≤ isotopes }
    requires few { isotopes ≤ 16 }
    requires few_atoms { atoms ≤ MAX_ATOMS }
    ensures { SomeIff result (length (compositions isotopes atoms) ≤ most) (length (compositions isotopes atoms)) }
{
    let mut count = at_most(1, most)?;
    for place in 1..isotopes as u64 {
        let product = u128::from(count) * u128::from(u64::from(atoms) + place);
        count = at_most(product / u128::from(place), most)?;
    }
    Some(count)
}

// The count, unless it is above `most`.
fn at_most(count: u128, most: u64) -> Option<u64>
    ensures { SomeIff result (count ≤ most) count }
{
    if count <= u128::from(most) {
        Some(count as u64)
    } else {
        None
    }
}
