ghost use Rattle.std.specs.Prelude.{◌≡◌, ◌*◌, ◌<◌};

// Units to the newton metre, and to the newton.
pub const MOMENT_SCALE: u32 = 32768;

pub const FORCE_SCALE: u32 = 65536;

// A capacity from below in units of 1/SCALE, fewer than LIMIT.
#[derive(Clone, Copy)]
pub struct Figure<const SCALE: u32, const LIMIT: u64> {
    pub units: u64,
    ghost below: { units < LIMIT },
}

pub type MomentFigure = Figure<MOMENT_SCALE, 68719476736>;

pub type ShearFigure = Figure<FORCE_SCALE, 2199023255552>;

pub type AxialFigure = Figure<FORCE_SCALE, 8796093022208>;

pub type BucklingFigure = Figure<FORCE_SCALE, 70368744177664>;

impl<const SCALE: u32, const LIMIT: u64> Figure<SCALE, LIMIT> {
    // A whole number of newtons, or of newton metres, in the units of such figures.
    pub fn units_of(amount: u32) -> u64
        ensures { result ≡ amount * SCALE }
    {
        u64::from(amount) * u64::from(SCALE)
    }
}
