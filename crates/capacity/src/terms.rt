ghost use Rattle.std.specs.Prelude.{◌≡◌, ◌<◌, ◌≤◌};
ghost use Rattle.capacity.specs.Terms.{outer_diameter, inner_diameter, ring_area, cubes, second_moment, section_modulus, shear_area};

use quantities::readings::Readings;

// A fraction of whole numbers.
#[derive(Clone, Copy)]
pub struct Ratio {
    pub num: u64,
    pub den: u64,
}

// D, in tenths of a millimetre.
fn outer_diameter(culm: &Readings) -> u64
    ensures value { result ≡ outer_diameter culm.now }
    ensures bound { result ≤ 1999 }
{
    u64::from(culm.diameter.value)
}

// d = D − 2δ, in tenths of a millimetre.
fn inner_diameter(culm: &Readings) -> u64
    ensures value { result ≡ inner_diameter culm.now }
    ensures bound { result ≤ 1999 }
{
    outer_diameter(culm) - 2 * u64::from(culm.wall.value)
}

// Each term by its own name and limit, as the rules have them.

// D² − d²
pub fn ring_area(culm: &Readings) -> u64
    ensures value { result ≡ ring_area culm.now }
    ensures bound { result ≤ 3996001 }
{
    outer_diameter(culm).pow(2) - inner_diameter(culm).pow(2)
}

// D³ − d³
#[tactic(auto, using(crate::proofs::Sizes::power_le, crate::proofs::Sizes::inner_le, crate::proofs::Sizes::cube_is))]
fn cubes_apart(culm: &Readings) -> u64
    ensures value { result ≡ cubes culm.now }
    ensures bound { result ≤ 7988005999 }
{
    outer_diameter(culm).pow(3) - inner_diameter(culm).pow(3)
}

// D⁴ − d⁴
#[tactic(auto, using(crate::proofs::Sizes::power_le, crate::proofs::Sizes::inner_le, crate::proofs::Sizes::fourth_is))]
pub fn second_moment(culm: &Readings) -> u64
    ensures value { result ≡ second_moment culm.now }
    ensures bound { result ≤ 15968023992001 }
{
    outer_diameter(culm).pow(4) - inner_diameter(culm).pow(4)
}

// (D⁴ − d⁴) / D
pub fn section_modulus(culm: &Readings) -> Ratio
    ensures num { result.num ≡ (section_modulus culm.now).num }
    ensures den { result.den ≡ (section_modulus culm.now).den }
    ensures bound { result.num ≤ 15968023992001 }
    ensures some { 0 < result.den }
    ensures few { result.den ≤ 1999 }
{
    Ratio {
        num: second_moment(culm),
        den: outer_diameter(culm),
    }
}

// 3 δ (D⁴ − d⁴) / (8 (D³ − d³))
pub fn shear_area(culm: &Readings) -> Ratio
    ensures num { result.num ≡ (shear_area culm.now).num }
    ensures den { result.den ≡ (shear_area culm.now).den }
    ensures bound { result.num ≤ 14323317520824897 }
    ensures some { 0 < result.den }
    ensures few { result.den ≤ 63904047992 }
{
    Ratio {
        num: 3 * u64::from(culm.wall.value) * second_moment(culm),
        den: 8 * cubes_apart(culm),
    }
}
