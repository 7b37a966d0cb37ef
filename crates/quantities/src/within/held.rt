ghost use Rattle.std.specs.Prelude.{◌≡◌, IfOk};
ghost use Rattle.quantities.specs.Measures.{within};

use crate::fault::MeasureFault;
use crate::within::Within;

impl<const LOW: u32, const HIGH: u32> Within<LOW, HIGH> {
    // The value where it lies from LOW to HIGH, else the fault.
    pub fn or_fault(value: u32, fault: MeasureFault) -> Result<Self, MeasureFault>
        ensures held { result ≡ within LOW HIGH value fault }
        ensures value { IfOk result (λ w. w.value ≡ value) }
    {
        if value < LOW || HIGH < value {
            return Err(fault);
        }
        Ok(Within { value })
    }

    // The value of a field, which is refused outside its range.
    pub fn in_field(field: u16, value: u32) -> Result<Self, MeasureFault>
        ensures held { result ≡ within LOW HIGH value (MeasureFault.OutOfRange field) }
        ensures value { IfOk result (λ w. w.value ≡ value) }
    {
        Self::or_fault(value, MeasureFault::OutOfRange { field })
    }
}
