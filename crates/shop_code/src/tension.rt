ghost use Rattle.std.specs.Prelude.{Decides};
ghost use Rattle.shop_code.specs.Deciding.{verdict_by, PullsWithin, pulls_within?};
ghost use Rattle.shop_code.specs.Figures.{tension_figures};
ghost use Rattle.shop_code.specs.Shop.{tension_meaning};
ghost use Rattle.shop_code.specs.Soundness.{tension_sound};
ghost use Rattle.std.proofs.Common.{ap₂, refl};
ghost use Rattle.capacity.specs.Figures.{moment_figure, tension_figure};
ghost use Rattle.shop_code.specs.Alike.{tension_same};

use crate::figures::TensionFigures;
use crate::whole::tension_whole;
use capacity::figures::{moment_figure, tension_figure};
use capacity::units::{AxialFigure, MomentFigure};
use design_code::code::DesignCode;
use design_code::verdict::{Refused, Verdict};
use quantities::bundle::Bundle;
use quantities::forces::{AxialForce, Forces, Moment};

// Clause 3: tension with bending.
#[derive(Clone, Copy)]
pub struct TensionCode;

const TENSION: u32 = 3;

// Whether a force in tension and a moment are within the figures; another force is.
fn pulls_within(figures: &TensionFigures, axial: AxialForce, moment: Moment) -> bool
    ensures { Decides result (PullsWithin figures.now.moment.units figures.now.tension.units axial.newtons moment.value) }
{
    if axial.newtons >= 0 {
        return true;
    }
    let pull = -axial.newtons;
    tension_whole(
        figures,
        AxialFigure::units_of(pull as u32),
        MomentFigure::units_of(moment.value),
    )
}

impl DesignCode for TensionCode {
    type Figures = TensionFigures;

    ghost meaning = { λ _. tension_meaning };

    ghost figured = { λ _ x. tension_figures x };

    ghost judged = { λ _ g f. verdict_by 3 (pulls_within? g.moment.units g.tension.units f.axial.newtons f.moment.value) };

    ghost sound = { λ s. tension_sound };

    ghost like = { λ s x y cs b. tension_same _ _ (ap₂ moment_figure cs b) (ap₂ tension_figure cs b) };

    ghost ruled = { λ s x f. refl };

    fn figures(&self, bundle: &Bundle) -> TensionFigures {
        TensionFigures {
            moment: moment_figure(bundle),
            tension: tension_figure(bundle),
        }
    }

    fn judge(&self, figures: &TensionFigures, forces: Forces) -> Verdict {
        Refused::unless(pulls_within(figures, forces.axial, forces.moment), TENSION)
    }
}
