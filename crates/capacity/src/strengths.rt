ghost use Rattle.std.specs.Prelude.{◌≡◌};
ghost use Rattle.quantities.specs.Bundles.{culms_of};
ghost use Rattle.capacity.specs.Strengths.{redundancy_of, factored_strength, factored_modulus};

use quantities::basis::DesignBasis;
use quantities::bundle::Bundle;
use quantities::grade::Strength;
use quantities::within::Within;

// A characteristic strength times two factors, in 1/100000 of a megapascal.
pub type FactoredStrength = Within<9000, 22000000>;

// A modulus of elasticity times its factor, in tenths of a megapascal.
pub type FactoredModulus = Within<2000, 200000>;

const ALONE: u32 = 90;

const SHARED: u32 = 110;

// The redundancy factor in percent of a bundle of so many culms.
pub fn redundancy(count: usize) -> u32
    ensures { result ≡ redundancy_of count }
{
    if count == 1 { ALONE } else { SHARED }
}

// A characteristic strength with the redundancy factor and the class's factor for the duration.
pub fn factored_strength(bundle: &Bundle, characteristic: Strength) -> FactoredStrength
    ensures { result.value ≡ factored_strength (culms_of bundle.now) bundle.now.basis characteristic.value }
{
    let basis = bundle.basis;
    let factor = basis.class.strength.during(basis.duration);
    let value = characteristic.value * redundancy(bundle.culms().len()) * factor.value;
    Within { value }
}

// The modulus of elasticity with the class's factor for the duration.
pub fn factored_modulus(basis: &DesignBasis) -> FactoredModulus
    ensures { result.value ≡ factored_modulus basis.now }
{
    let factor = basis.class.modulus.during(basis.duration);
    let value = basis.grade.modulus.value * factor.value;
    Within { value }
}
