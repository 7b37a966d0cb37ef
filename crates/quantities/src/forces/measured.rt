ghost use Rattle.std.specs.Prelude.{◌≡◌};
ghost use Rattle.quantities.specs.Measures.{axial_force, forces};

use crate::fault::MeasureFault;
use crate::forces::{AxialForce, Forces, RawForces};
use crate::within::Within;

const AXIAL_LIMIT: u32 = 200000;

impl AxialForce {
    pub fn in_field(field: u16, newtons: i32) -> Result<AxialForce, MeasureFault>
        ensures { result ≡ axial_force newtons (MeasureFault.OutOfRange field) }
    {
        if AXIAL_LIMIT < newtons.unsigned_abs() {
            return Err(MeasureFault::OutOfRange { field });
        }
        Ok(AxialForce { newtons })
    }
}

impl Forces {
    // The forces of which the axial force stands in the field `first`, then shear and moment.
    pub fn measured(first: u8, raw: RawForces) -> Result<Forces, MeasureFault>
        ensures { result ≡ forces first raw }
    {
        let first = u16::from(first);
        Ok(Forces {
            axial: AxialForce::in_field(first, raw.axial)?,
            shear: Within::in_field(first + 1, raw.shear)?,
            moment: Within::in_field(first + 2, raw.moment)?,
        })
    }
}
