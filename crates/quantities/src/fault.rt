ghost use Rattle.std.specs.Prelude.{◌≡◌};
ghost use Rattle.quantities.specs.Faults.{fault_number, fault_place};

// Why raw numbers are no measure, with the field of the call in which the offending one stands;
// the call's name is field 1.
#[derive(Clone, Copy, PartialEq, Eq, Debug)]
pub enum MeasureFault {
    OutOfRange { field: u16 },
    AtStop { field: u16 },
    WallTooThick { field: u16 },
}

impl MeasureFault {
    // The refusal's number.
    pub fn number(self) -> u16
        ensures { result ≡ fault_number self }
    {
        match self {
            MeasureFault::OutOfRange { .. } => 5,
            MeasureFault::AtStop { .. } => 6,
            MeasureFault::WallTooThick { .. } => 7,
        }
    }

    // The refusal's place: the field.
    pub fn place(self) -> u16
        ensures { result ≡ fault_place self }
    {
        match self {
            MeasureFault::OutOfRange { field }
            | MeasureFault::AtStop { field }
            | MeasureFault::WallTooThick { field } => field,
        }
    }
}
