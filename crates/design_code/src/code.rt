ghost use Rattle.std.specs.Prelude.{◌≡◌};
ghost use Rattle.quantities.specs.Bundles.{culms_of};
ghost use Rattle.quantities.specs.declared.bundle.Bundle.{Bundle};
ghost use Rattle.quantities.specs.declared.forces.Forces.{Forces};
ghost use Rattle.design_code.specs.Meaning.{Meaning, Sound};
ghost use Rattle.design_code.specs.Verdicts.{Verdict};

use crate::verdict::Verdict;
use quantities::bundle::Bundle;
use quantities::forces::Forces;

// A design code works out figures from a bundle and then judges figures against forces; neither step refuses.
pub trait DesignCode {
    type Figures: Drop;

    // What the code means: its rule, its clauses and the exact relation of each.
    ghost meaning: { Self → Meaning };

    // The figures of a bundle, and the verdict on figures.
    ghost figured: { Self → Bundle → Self.Figures };

    ghost judged: { Self → Self.Figures → Forces → Verdict };

    fn figures(&self, bundle: &Bundle) -> Self::Figures
        ensures { result ≡ figured self.now bundle.now };

    fn judge(&self, figures: &Self::Figures, forces: Forces) -> Verdict
        ensures { result ≡ judged self.now figures.now forces };

    // The two facts, and that equal fractions count alike.
    ghost sound: { (s : Self) → Sound (meaning s) };

    // Like bundles get like figures.
    ghost like: { (s : Self) (x y : Bundle) → culms_of x ≡ culms_of y → x.basis ≡ y.basis → figured s x ≡ figured s y };

    // The verdict on a bundle's figures is the rule's on the bundle.
    ghost ruled: { (s : Self) (x : Bundle) (f : Forces) → judged s (figured s x) f ≡ (meaning s).rule (culms_of x) x.basis f };
}
