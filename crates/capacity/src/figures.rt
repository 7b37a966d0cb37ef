ghost use Rattle.std.specs.Prelude.{◌≡◌, ◌≤◌, sum_by};
ghost use Rattle.exact.specs.Rounding.{Figured};
ghost use Rattle.quantities.specs.Bundles.{culms_of};
ghost use Rattle.exact.specs.Pi.{lower_pi, upper_pi};
ghost use Rattle.capacity.specs.Capacities.{moment_capacity, shear_capacity, tension_capacity, crushing_capacity, buckling_capacity, least_straightness};
ghost use Rattle.capacity.specs.Figures.{moment_figure, shear_figure, tension_figure, crushing_figure, buckling_figure};
ghost use Rattle.capacity.specs.Shares.{axial_share};
ghost use Rattle.capacity.specs.Strengths.{factored_strength};
ghost use Rattle.capacity.specs.Terms.{ring_area, second_moment};

use crate::shares::{axial_share, buckling_share, moment_share, shear_share};
use crate::strengths::{factored_modulus, factored_strength};
use crate::terms::{ring_area, second_moment};
use crate::units::{AxialFigure, BucklingFigure, MomentFigure, ShearFigure};
use quantities::bundle::Bundle;
use quantities::grade::Strength;
use quantities::numbers::Percent;
use quantities::readings::Readings;
use quantities::within::Within;

// Each figure by its own function: strength, part and capacity are those of one formula of the rules.

// M_r from below, in 1/32768 newton metre.
pub fn moment_figure(bundle: &Bundle) -> MomentFigure
    ensures value { result.units ≡ moment_figure (culms_of bundle.now) bundle.now.basis }
    ensures figured { Figured result.units 32768 (moment_capacity lower_pi (culms_of bundle.now) bundle.now.basis) (moment_capacity upper_pi (culms_of bundle.now) bundle.now.basis) }
{
    let strength = factored_strength(bundle, bundle.basis.grade.bending);
    let units = bundle
        .culms()
        .iter()
        .map(|culm| moment_share(strength, culm))
        .sum();
    MomentFigure { units }
}

// V_r from below, in 1/65536 newton.
pub fn shear_figure(bundle: &Bundle) -> ShearFigure
    ensures value { result.units ≡ shear_figure (culms_of bundle.now) bundle.now.basis }
    ensures figured { Figured result.units 65536 (shear_capacity lower_pi (culms_of bundle.now) bundle.now.basis) (shear_capacity upper_pi (culms_of bundle.now) bundle.now.basis) }
{
    let strength = factored_strength(bundle, bundle.basis.grade.shear);
    let units = bundle
        .culms()
        .iter()
        .map(|culm| shear_share(strength, culm))
        .sum();
    ShearFigure { units }
}

// D² − d² of all culms.
fn ring_areas(bundle: &Bundle) -> u64
    ensures value { result ≡ sum_by ring_area (culms_of bundle.now) }
    ensures bound { result ≤ 63936016 }
{
    bundle.culms().iter().map(ring_area).sum()
}

// D⁴ − d⁴ of all culms.
fn second_moments(bundle: &Bundle) -> u64
    ensures value { result ≡ sum_by second_moment (culms_of bundle.now) }
    ensures bound { result ≤ 255488383872016 }
{
    bundle.culms().iter().map(second_moment).sum()
}

// The capacity along the axis that goes with a strength, from below, in 1/65536 newton.
fn axial_figure(bundle: &Bundle, characteristic: Strength) -> AxialFigure
    ensures { result.units ≡ axial_share (factored_strength (culms_of bundle.now) bundle.now.basis characteristic.value) (sum_by ring_area (culms_of bundle.now)) }
{
    let strength = factored_strength(bundle, characteristic);
    let units = axial_share(strength, ring_areas(bundle));
    AxialFigure { units }
}

// N_t from below, in 1/65536 newton. Tension and crushing keep a name each: callers think of the capacity, not of the strength.
#[tactic(auto, using(crate::proofs::Rounded::tension_figured, quantities::proofs::Bundled::culms_some))]
pub fn tension_figure(bundle: &Bundle) -> AxialFigure
    ensures value { result.units ≡ tension_figure (culms_of bundle.now) bundle.now.basis }
    ensures figured { Figured result.units 65536 (tension_capacity lower_pi (culms_of bundle.now) bundle.now.basis) (tension_capacity upper_pi (culms_of bundle.now) bundle.now.basis) }
{
    axial_figure(bundle, bundle.basis.grade.tension)
}

// P_c from below, in 1/65536 newton.
#[tactic(auto, using(crate::proofs::Rounded::crushing_figured, quantities::proofs::Bundled::culms_some))]
pub fn crushing_figure(bundle: &Bundle) -> AxialFigure
    ensures value { result.units ≡ crushing_figure (culms_of bundle.now) bundle.now.basis }
    ensures figured { Figured result.units 65536 (crushing_capacity lower_pi (culms_of bundle.now) bundle.now.basis) (crushing_capacity upper_pi (culms_of bundle.now) bundle.now.basis) }
{
    axial_figure(bundle, bundle.basis.grade.compression)
}

// The least straightness of the culms.
fn least_straightness(culms: &[Readings]) -> Percent
    ensures { result.value ≡ least_straightness culms.now }
{
    let value = culms
        .iter()
        .fold(100, |least, culm| least.min(culm.straightness.value));
    Within { value }
}

// P_e from below, in 1/65536 newton.
pub fn buckling_figure(bundle: &Bundle) -> BucklingFigure
    ensures value { result.units ≡ buckling_figure (culms_of bundle.now) bundle.now.basis }
    ensures figured { Figured result.units 65536 (buckling_capacity lower_pi (culms_of bundle.now) bundle.now.basis) (buckling_capacity upper_pi (culms_of bundle.now) bundle.now.basis) }
{
    let modulus = factored_modulus(&bundle.basis);
    let straightness = least_straightness(bundle.culms());
    let moment = second_moments(bundle);
    let units = buckling_share(modulus, straightness, moment, bundle.basis.length);
    BucklingFigure { units }
}
