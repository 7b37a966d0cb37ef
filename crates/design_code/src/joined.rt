ghost use Rattle.design_code.specs.Meaning.{joined_with, first};
ghost use Rattle.design_code.specs.Joining.{joined_sound};
ghost use Rattle.std.proofs.Common.{ap₂};

use crate::code::DesignCode;
use crate::verdict::Verdict;
use quantities::bundle::Bundle;
use quantities::forces::Forces;

// Two codes joined: the first judges, then the second.
#[derive(Clone, Copy)]
pub struct Joined<A, B>(pub A, pub B);

impl<A: DesignCode, B: DesignCode> DesignCode for Joined<A, B> {
    type Figures = (A::Figures, B::Figures);

    ghost meaning = { λ s. joined_with (A.DesignCode.meaning s.0) (B.DesignCode.meaning s.1) };

    ghost figured = { λ s x. (A.DesignCode.figured s.0 x, B.DesignCode.figured s.1 x) };

    ghost judged = { λ s g f. first (A.DesignCode.judged s.0 g.0 f) (B.DesignCode.judged s.1 g.1 f) };

    ghost sound = { λ s. joined_sound _ _ (A.DesignCode.sound s.0) (B.DesignCode.sound s.1) };

    ghost like = { λ s x y cs b. ap₂ (λ u v. (u, v)) (A.DesignCode.like s.0 x y cs b) (B.DesignCode.like s.1 x y cs b) };

    ghost ruled = { λ s x f. ap₂ first (A.DesignCode.ruled s.0 x f) (B.DesignCode.ruled s.1 x f) };

    fn figures(&self, bundle: &Bundle) -> (A::Figures, B::Figures) {
        (self.0.figures(bundle), self.1.figures(bundle))
    }

    fn judge(&self, figures: &(A::Figures, B::Figures), forces: Forces) -> Verdict {
        self.0.judge(&figures.0, forces)?;
        self.1.judge(&figures.1, forces)
    }
}
