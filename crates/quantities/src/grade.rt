ghost use Rattle.std.specs.Prelude.{◌≡◌};
ghost use Rattle.quantities.specs.Measures.{grade};

use crate::fault::MeasureFault;
use crate::within::Within;

// A characteristic strength in tenths of a megapascal.
pub type Strength = Within<10, 2000>;

// A modulus of elasticity in tens of megapascals.
pub type Modulus = Within<200, 2000>;

// Numbers for the values of a grade, not yet checked. A record of its own, as of readings and forces: checked, the fields differ in type.
#[derive(Clone, Copy)]
pub struct RawGrade {
    pub bending: u32,
    pub compression: u32,
    pub tension: u32,
    pub shear: u32,
    pub modulus: u32,
}

// The characteristic values of a grade of bamboo.
#[derive(Clone, Copy)]
pub struct Grade {
    pub bending: Strength,
    pub compression: Strength,
    pub tension: Strength,
    pub shear: Strength,
    pub modulus: Modulus,
}

impl Grade {
    // The grade whose bending strength stands in the field `first` and the others behind it.
    pub fn measured(first: u8, raw: RawGrade) -> Result<Grade, MeasureFault>
        ensures { result ≡ grade first raw }
    {
        let first = u16::from(first);
        Ok(Grade {
            bending: Within::in_field(first, raw.bending)?,
            compression: Within::in_field(first + 1, raw.compression)?,
            tension: Within::in_field(first + 2, raw.tension)?,
            shear: Within::in_field(first + 3, raw.shear)?,
            modulus: Within::in_field(first + 4, raw.modulus)?,
        })
    }
}
