//! The exact weight of small counts, in the plainest way: the reference of the tests.

ghost use Rattle.std.specs.Prelude.{◌≡◌, ◌==◌, ◌^◌, ◌<◌, ◌≤◌, length, sum};
ghost use Rattle.std.specs.List.{list_all};
ghost use Rattle.multinomial_bounds.specs.Weight.{weight_of, total_of};

/// The weight of the counts among all ways to draw this many atoms, one by one. The counts are those
/// that were passed again at the end.
pub fn exact_weight(weights: &[u64], atoms: u32, counts: &mut [u32]) -> u128
    requires same_places { length counts.old ≡ length weights.now }
    requires some { 1 ≤ sum weights.now }
    requires fits { total_of weights.now atoms < 2 ^ 128 }
    ensures weight { result ≡ weight_of weights.now atoms counts.old }
    ensures same { counts.new ≡ counts.old }
{
    if atoms == 0 {
        return if has_no_atom(counts) { 1 } else { 0 };
    }
    let mut weight = 0;
    for i in 0..weights.len() {
        if counts[i] > 0 {
            counts[i] -= 1;
            let others = exact_weight(weights, atoms - 1, counts);
            weight += u128::from(weights[i]) * others;
            counts[i] += 1;
        }
    }
    weight
}

// Whether the counts are all 0.
fn has_no_atom(counts: &[u32]) -> bool
    ensures { result ≡ list_all (λ c. c == 0) counts.now }
{
    counts.iter().all(|count| *count == 0)
}
