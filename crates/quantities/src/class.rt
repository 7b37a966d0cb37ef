ghost use Rattle.std.specs.Prelude.{◌≡◌, ◌≤◌};
ghost use Rattle.quantities.specs.Measures.{factors, service_class};
ghost use Rattle.quantities.specs.Durations.{factor_for};

use crate::duration::Duration;
use crate::fault::MeasureFault;
use crate::numbers::Percent;
use crate::within::Within;

// A factor for each duration of load.
#[derive(Clone, Copy)]
pub struct Factors<T> {
    pub permanent: T,
    pub transient: T,
    pub instantaneous: T,
}

// The factors of a service class: on strengths and on the modulus of elasticity.
#[derive(Clone, Copy)]
pub struct Class<T> {
    pub strength: Factors<T>,
    pub modulus: Factors<T>,
}

// A service class, with factors in percent.
pub type ServiceClass = Class<Percent>;

// Numbers for the factors of a class, not yet checked.
pub type RawFactors = Factors<u32>;

pub type RawClass = Class<u32>;

impl Factors<Percent> {
    // The factors of which the first stands in the field `first`.
    fn measured(first: u16, raw: RawFactors) -> Result<Factors<Percent>, MeasureFault>
        requires { first ≤ 1000 }
        ensures { result ≡ factors first raw }
    {
        Ok(Factors {
            permanent: Within::in_field(first, raw.permanent)?,
            transient: Within::in_field(first + 1, raw.transient)?,
            instantaneous: Within::in_field(first + 2, raw.instantaneous)?,
        })
    }
}

impl<T: Copy> Factors<T> {
    // The factor for a duration.
    pub fn during(&self, duration: Duration) -> T
        ensures { result ≡ factor_for self.now duration }
    {
        match duration {
            Duration::Permanent => self.permanent,
            Duration::Transient => self.transient,
            Duration::Instantaneous => self.instantaneous,
        }
    }
}

impl ServiceClass {
    // The class whose first strength factor stands in the field `first`, the modulus factors behind.
    pub fn measured(first: u8, raw: RawClass) -> Result<ServiceClass, MeasureFault>
        ensures { result ≡ service_class first raw }
    {
        let first = u16::from(first);
        Ok(Class {
            strength: Factors::measured(first, raw.strength)?,
            modulus: Factors::measured(first + 3, raw.modulus)?,
        })
    }
}
