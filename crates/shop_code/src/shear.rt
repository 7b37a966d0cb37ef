ghost use Rattle.std.specs.Prelude.{◌*◌};
ghost use Rattle.exact.specs.Deciding.{at_most};
ghost use Rattle.shop_code.specs.Deciding.{verdict_by};
ghost use Rattle.shop_code.specs.Figures.{shear_units};
ghost use Rattle.shop_code.specs.Shop.{shear_meaning};
ghost use Rattle.shop_code.specs.Soundness.{shear_sound};
ghost use Rattle.std.proofs.Common.{ap₂, refl};
ghost use Rattle.capacity.specs.Figures.{shear_figure};
ghost use Rattle.capacity.specs.Alike.{figure_same};

use capacity::figures::shear_figure;
use capacity::units::ShearFigure;
use design_code::code::DesignCode;
use design_code::verdict::{Refused, Verdict};
use quantities::bundle::Bundle;
use quantities::forces::Forces;

// Clause 2: the shear force is at most V_r. A code of its own beside bending: figure, force, meaning and soundness all differ.
#[derive(Clone, Copy)]
pub struct ShearCode;

const SHEAR: u32 = 2;

impl DesignCode for ShearCode {
    type Figures = ShearFigure;

    ghost meaning = { λ _. shear_meaning };

    ghost figured = { λ _ x. shear_units x };

    ghost judged = { λ _ g f. verdict_by 2 (at_most (f.shear.value * 65536) g.units) };

    ghost sound = { λ s. shear_sound };

    ghost like = { λ s x y cs b. figure_same _ _ (ap₂ shear_figure cs b) };

    ghost ruled = { λ s x f. refl };

    fn figures(&self, bundle: &Bundle) -> ShearFigure {
        shear_figure(bundle)
    }

    fn judge(&self, figures: &ShearFigure, forces: Forces) -> Verdict {
        Refused::unless(
            ShearFigure::units_of(forces.shear.value) <= figures.units,
            SHEAR,
        )
    }
}
