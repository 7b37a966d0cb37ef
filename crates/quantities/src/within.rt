ghost use Rattle.std.specs.Prelude.{◌≤◌};

pub mod held;

// A whole number from LOW to HIGH.
#[derive(Clone, Copy)]
pub struct Within<const LOW: u32, const HIGH: u32> {
    pub value: u32,
    ghost low: { LOW ≤ value },
    ghost high: { value ≤ HIGH },
}
