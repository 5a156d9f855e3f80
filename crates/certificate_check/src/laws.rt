//! What holds of judgements, as laws over definitions alone.

ghost use Rattle.std.specs.Prelude.{◌≡◌, ◌≤◌, ℕ, false, All};
ghost use Rattle.element_table.specs.Elements.{TableEntries, IsTable};
ghost use Rattle.formula_text.specs.Masses.{HasItems};
ghost use Rattle.formula_text.specs.Formulas.{IsFormula};
ghost use Rattle.isotopologue_sets.specs.Layers.{AreElements, has_too_many, last_threshold_for};
ghost use Rattle.isotopologue_sets.specs.Coverage.{max_coverage};
ghost use Rattle.isotopologue_sets.specs.Covers.{cover_numbers};
ghost use Rattle.isotopologue_text.specs.Isotopologues.{formula_elements};
ghost use Rattle.certificate_text.specs.Certificates.{CertificateEntries};
ghost use Rattle.certificate_check.specs.declared.judgement.Judgement.TheVariants.{Accepted};
ghost use Rattle.certificate_check.specs.Judgements.{judgement};
ghost use Rattle.certificate_check.specs.CertificateMeaning.{CertificateMeans};
ghost use Rattle.certificate_check.specs.CoverCertificates.{IsOfCover};

/// States what holds of judgements, and does nothing. What an accepted certificate claims is true, whoever made it.
/// The certificate of a formula's cover is accepted, for each coverage from 1 unit of 10^-18 to 0.999999 that has one.
pub fn judgement_laws()
    ensures sound { (table : TableEntries) (certificate : CertificateEntries) → IsTable table →
        IsFormula certificate.formula → HasItems table certificate.formula →
        AreElements (formula_elements table certificate.formula) →
        judgement table certificate ≡ Accepted → CertificateMeans table certificate }
    ensures complete { (table : TableEntries) (certificate : CertificateEntries) → IsTable table →
        IsFormula certificate.formula → HasItems table certificate.formula →
        let elements = formula_elements table certificate.formula in
        AreElements elements →
        1 ≤ certificate.coverage → certificate.coverage ≤ max_coverage →
        has_too_many elements (last_threshold_for elements certificate.coverage) ≡ false →
        IsOfCover table certificate (cover_numbers elements certificate.coverage) →
        judgement table certificate ≡ Accepted }
{}
