ghost use Rattle.std.specs.Prelude.{◌≤◌, unsigned_abs};

use crate::within::Within;

pub mod measured;

// An axial force in newtons: positive in compression, negative in tension. No `Within`, whose numbers have no sign.
#[derive(Clone, Copy)]
pub struct AxialForce {
    pub newtons: i32,
    ghost limit: { unsigned_abs newtons ≤ 200000 },
}

// A shear force in newtons.
pub type ShearForce = Within<0, 200000>;

// A bending moment in newton metres.
pub type Moment = Within<0, 50000>;

// Numbers for the forces on a member, not yet checked.
#[derive(Clone, Copy)]
pub struct RawForces {
    pub axial: i32,
    pub shear: u32,
    pub moment: u32,
}

// The forces on a member.
#[derive(Clone, Copy)]
pub struct Forces {
    pub axial: AxialForce,
    pub shear: ShearForce,
    pub moment: Moment,
}
