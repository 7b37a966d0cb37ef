ghost use Rattle.std.specs.Prelude.{Decides};
ghost use Rattle.shop_code.specs.Deciding.{verdict_by, PressesWithin, presses_within?};
ghost use Rattle.shop_code.specs.Figures.{compression_figures};
ghost use Rattle.shop_code.specs.Shop.{compression_meaning};
ghost use Rattle.shop_code.specs.Soundness.{compression_sound};
ghost use Rattle.std.proofs.Common.{ap₂, refl};
ghost use Rattle.capacity.specs.Figures.{moment_figure, buckling_figure, crushing_figure};
ghost use Rattle.shop_code.specs.Alike.{compression_same};

use crate::figures::CompressionFigures;
use crate::whole::compression_whole;
use capacity::figures::{buckling_figure, crushing_figure, moment_figure};
use capacity::units::{AxialFigure, MomentFigure};
use design_code::code::DesignCode;
use design_code::verdict::{Refused, Verdict};
use quantities::bundle::Bundle;
use quantities::forces::{AxialForce, Forces, Moment};

// Clause 4: compression with bending, which the axial force makes grow. A code of its own beside tension: figures, sign and relation differ.
#[derive(Clone, Copy)]
pub struct CompressionCode;

const COMPRESSION: u32 = 4;

// Whether a force in compression and a moment are within the figures; another force is.
fn presses_within(figures: &CompressionFigures, axial: AxialForce, moment: Moment) -> bool
    ensures { Decides result (PressesWithin figures.now.moment.units figures.now.buckling.units figures.now.crushing.units axial.newtons moment.value) }
{
    if axial.newtons <= 0 {
        return true;
    }
    let press = axial.newtons as u32;
    compression_whole(
        figures,
        AxialFigure::units_of(press),
        MomentFigure::units_of(moment.value),
    )
}

impl DesignCode for CompressionCode {
    type Figures = CompressionFigures;

    ghost meaning = { λ _. compression_meaning };

    ghost figured = { λ _ x. compression_figures x };

    ghost judged = { λ _ g f. verdict_by 4 (presses_within? g.moment.units g.buckling.units g.crushing.units f.axial.newtons f.moment.value) };

    ghost sound = { λ s. compression_sound };

    ghost like = { λ s x y cs b. compression_same _ _ (ap₂ moment_figure cs b) (ap₂ buckling_figure cs b) (ap₂ crushing_figure cs b) };

    ghost ruled = { λ s x f. refl };

    fn figures(&self, bundle: &Bundle) -> CompressionFigures {
        CompressionFigures {
            moment: moment_figure(bundle),
            buckling: buckling_figure(bundle),
            crushing: crushing_figure(bundle),
        }
    }

    fn judge(&self, figures: &CompressionFigures, forces: Forces) -> Verdict {
        Refused::unless(
            presses_within(figures, forces.axial, forces.moment),
            COMPRESSION,
        )
    }
}
