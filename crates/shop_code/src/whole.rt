ghost use Rattle.std.specs.Prelude.{◌*◌, ◌^◌, ◌<◌, Decides};
ghost use Rattle.clauses.specs.Whole.{Slack, TensionWhole, CompressionWhole};

use crate::figures::{CompressionFigures, TensionFigures};
use exact::wide::product_le;

// Whether w ≤ p, w ≤ q and w² ≤ 5 (p − w) (q − w).
fn slack(w: u128, p: u128, q: u128) -> bool
    requires { p < 2 ^ 125 }
    ensures { Decides result (Slack w p q) }
{
    w <= p && w <= q && product_le(w, w, 5 * (p - w), q - w)
}

// Whether axial / tension + moment / bending ≤ 1, the forces in units of the figures.
pub fn tension_whole(figures: &TensionFigures, axial: u64, moment: u64) -> bool
    requires tension { axial < 2 ^ 34 }
    requires moment { moment < 2 ^ 31 }
    ensures { Decides result (TensionWhole figures.now.moment.units figures.now.tension.units axial moment) }
{
    let bending = u128::from(figures.moment.units);
    let tension = u128::from(figures.tension.units);
    u128::from(axial) * bending + u128::from(moment) * tension <= tension * bending
}

// Whether n has slack within rest / whole of c and of e.
fn rest_bears(n: u128, whole: u128, rest: u128, c: u128, e: u128) -> bool
    requires compression { n < 2 ^ 34 }
    requires whole { whole < 2 ^ 82 }
    requires rest { rest < 2 ^ 82 }
    requires crushing_figure { c < 2 ^ 43 }
    requires buckling_figure { e < 2 ^ 46 }
    ensures { Decides result (Slack (n * whole) (rest * c) (rest * e)) }
{
    slack(n * whole, rest * c, rest * e)
}

// Whether an axial force in compression with a moment is within the figures, the forces in units of the figures.
pub fn compression_whole(figures: &CompressionFigures, axial: u64, moment: u64) -> bool
    requires compression { axial < 2 ^ 34 }
    requires moment { moment < 2 ^ 31 }
    ensures { Decides result (CompressionWhole figures.now.moment.units figures.now.buckling.units figures.now.crushing.units axial moment) }
{
    let bending = u128::from(figures.moment.units);
    let buckling = u128::from(figures.buckling.units);
    let crushing = u128::from(figures.crushing.units);
    let press = u128::from(axial);
    if buckling <= press {
        return false;
    }
    let whole = bending * (buckling - press);
    let bent = u128::from(moment) * buckling;
    if whole < bent {
        return false;
    }
    rest_bears(press, whole, whole - bent, crushing, buckling)
}
