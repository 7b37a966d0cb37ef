ghost use Rattle.std.specs.Prelude.{◌≡◌, ◌^◌, ◌<◌, ◌≤◌};
ghost use Rattle.capacity.specs.Shares.{moment_share, shear_share, axial_share, buckling_share};

use crate::strengths::{FactoredModulus, FactoredStrength};
use crate::terms::{section_modulus, shear_area};
use crate::units::{FORCE_SCALE, MOMENT_SCALE};
use quantities::numbers::{EffectiveLength, Percent};
use quantities::readings::Readings;

// π from below, in 1/10⁸.
const PI: u128 = 314_159_265;

// The divisors of the formulas, with those of strength and π: 2 × 10⁵ × 10⁸ × 32 × 10⁶ and 4 × 10⁵ × 10⁸ × 100.
const MOMENT_DIVISOR: u128 = 640_000_000_000_000_000_000;

const SHEAR_DIVISOR: u128 = 4_000_000_000_000_000;

// 2 × 10⁵ × 10⁸ × 400
const AXIAL_DIVISOR: u128 = 8_000_000_000_000_000;

// A little under π³, in 1/10⁶.
const PI_CUBED: u128 = 31_006_276;

// 10⁶ × 10 × 100 × 64 × 10⁴
const BUCKLING_DIVISOR: u128 = 640_000_000_000_000;

// A function for each formula of the rules, with the limit that its callers need: they share a shape and no contract.

// A culm's share of the moment capacity, in 1/32768 newton metre, rounded down.
pub fn moment_share(strength: FactoredStrength, culm: &Readings) -> u64
    ensures value { result ≡ moment_share strength.value culm.now }
    ensures bound { result < 2 ^ 32 }
{
    let section = section_modulus(culm);
    let scaled = u128::from(strength.value)
        * PI
        * u128::from(MOMENT_SCALE)
        * u128::from(section.num);
    (scaled / (u128::from(section.den) * MOMENT_DIVISOR)) as u64
}

// A culm's share of the shear capacity, in 1/65536 newton, rounded down.
pub fn shear_share(strength: FactoredStrength, culm: &Readings) -> u64
    ensures value { result ≡ shear_share strength.value culm.now }
    ensures bound { result < 2 ^ 37 }
{
    let area = shear_area(culm);
    let scaled = u128::from(strength.value) * PI * u128::from(FORCE_SCALE) * u128::from(area.num);
    (scaled / (u128::from(area.den) * SHEAR_DIVISOR)) as u64
}

// Strength × π / 400 × area, in 1/65536 newton, rounded down.
pub fn axial_share(strength: FactoredStrength, area: u64) -> u64
    requires { area ≤ 63936016 }
    ensures value { result ≡ axial_share strength.value area }
    ensures bound { result < 2 ^ 43 }
{
    let scaled = u128::from(strength.value) * PI * u128::from(FORCE_SCALE) * u128::from(area);
    (scaled / AXIAL_DIVISOR) as u64
}

// Modulus × straightness × second moment, over the length squared, in 1/65536 newton, rounded down.
pub fn buckling_share(
    modulus: FactoredModulus,
    straightness: Percent,
    moment: u64,
    length: EffectiveLength,
) -> u64
    requires { moment ≤ 255488383872016 }
    ensures value { result ≡ buckling_share modulus.value straightness.value moment length.value }
    ensures bound { result < 2 ^ 46 }
{
    let stiffness = u128::from(modulus.value) * u128::from(straightness.value) * u128::from(moment);
    let length = u128::from(length.value);
    let scaled = PI_CUBED * u128::from(FORCE_SCALE) * stiffness;
    (scaled / (BUCKLING_DIVISOR * length * length)) as u64
}
