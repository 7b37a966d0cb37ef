ghost use Rattle.std.specs.Prelude.{◌*◌};
ghost use Rattle.exact.specs.Deciding.{at_most};
ghost use Rattle.shop_code.specs.Deciding.{verdict_by};
ghost use Rattle.shop_code.specs.Figures.{moment_units};
ghost use Rattle.shop_code.specs.Shop.{bending_meaning};
ghost use Rattle.shop_code.specs.Soundness.{bending_sound};
ghost use Rattle.std.proofs.Common.{ap₂, refl};
ghost use Rattle.capacity.specs.Figures.{moment_figure};
ghost use Rattle.capacity.specs.Alike.{figure_same};

use capacity::figures::moment_figure;
use capacity::units::MomentFigure;
use design_code::code::DesignCode;
use design_code::verdict::{Refused, Verdict};
use quantities::bundle::Bundle;
use quantities::forces::Forces;

// Clause 1: the moment is at most M_r.
#[derive(Clone, Copy)]
pub struct BendingCode;

const BENDING: u32 = 1;

impl DesignCode for BendingCode {
    type Figures = MomentFigure;

    ghost meaning = { λ _. bending_meaning };

    ghost figured = { λ _ x. moment_units x };

    ghost judged = { λ _ g f. verdict_by 1 (at_most (f.moment.value * 32768) g.units) };

    ghost sound = { λ s. bending_sound };

    ghost like = { λ s x y cs b. figure_same _ _ (ap₂ moment_figure cs b) };

    ghost ruled = { λ s x f. refl };

    fn figures(&self, bundle: &Bundle) -> MomentFigure {
        moment_figure(bundle)
    }

    fn judge(&self, figures: &MomentFigure, forces: Forces) -> Verdict {
        Refused::unless(
            MomentFigure::units_of(forces.moment.value) <= figures.units,
            BENDING,
        )
    }
}
