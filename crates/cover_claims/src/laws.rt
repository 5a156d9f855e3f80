//! What holds of claims, as laws over definitions alone.

ghost use Rattle.std.specs.Prelude.{◌≡◌, ◌≤◌, ℕ, List, false, None, All};
ghost use Rattle.multinomial_bounds.specs.Isotopologue.{Element, IsIsotopologue};
ghost use Rattle.isotopologue_sets.specs.Layers.{AreElements, has_too_many, last_threshold_for};
ghost use Rattle.isotopologue_sets.specs.Coverage.{max_coverage};
ghost use Rattle.isotopologue_sets.specs.Covers.{cover_numbers};
ghost use Rattle.cover_claims.specs.declared.claim.ClaimNumbers.{ClaimNumbers};
ghost use Rattle.cover_claims.specs.Claims.{Claimed, isotopologues_in, claim_fault};
ghost use Rattle.cover_claims.specs.ClaimMeaning.{IsTrueClaim};
ghost use Rattle.cover_claims.specs.CoverClaims.{claimed_by_cover, numbers_of_cover};

/// States what holds of claims, and does nothing. A claim of isotopologues that fails no test is true, whoever made it.
/// What the cover of elements claims of its layer fails none, for each coverage that has a cover.
pub fn claim_laws()
    ensures sound { (claimed : Claimed) (claim : ClaimNumbers) → AreElements claimed.elements →
        All (IsIsotopologue claimed.elements) (isotopologues_in claimed.members) →
        claim_fault claimed claim ≡ None → IsTrueClaim claimed claim }
    ensures complete { (elements : List Element) → AreElements elements →
        (coverage : ℕ) → 1 ≤ coverage → coverage ≤ max_coverage →
        has_too_many elements (last_threshold_for elements coverage) ≡ false →
        let cover = cover_numbers elements coverage in
        claim_fault (claimed_by_cover elements cover) (numbers_of_cover coverage cover) ≡ None }
{}
