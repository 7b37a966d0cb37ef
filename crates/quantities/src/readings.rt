ghost use Rattle.std.specs.Prelude.{◌*◌, ◌≤◌};

use crate::numbers::Percent;
use crate::within::Within;

pub mod measured;

// What the diameter gauge and the wall gauge can show, in tenths of a millimetre.
pub type DiameterScale = Within<300, 2000>;

pub type WallScale = Within<30, 300>;

// Readings off the stops of the gauges.
pub type Diameter = Within<301, 1999>;

pub type Wall = Within<31, 299>;

// Numbers for the readings of one culm, not yet checked.
#[derive(Clone, Copy)]
pub struct RawReadings {
    pub diameter: u32,
    pub wall: u32,
    pub straightness: u32,
}

// The readings of one culm: outer diameter and wall in tenths of a millimetre, and its straightness,
// a factor in percent.
#[derive(Clone, Copy)]
pub struct Readings {
    pub diameter: Diameter,
    pub wall: Wall,
    pub straightness: Percent,
    ghost third: { 3 * wall.value ≤ diameter.value },
}
