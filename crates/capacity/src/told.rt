ghost use Rattle.std.specs.Prelude.{◌^◌, ◌<◌, ◌≤◌};
ghost use Rattle.exact.specs.Fraction.{Fraction};
ghost use Rattle.exact.specs.Rounding.{Figured};
ghost use Rattle.quantities.specs.Bundles.{culms_of};
ghost use Rattle.exact.specs.Pi.{lower_pi, upper_pi};
ghost use Rattle.capacity.specs.Told.{capacity_of, Tells};

use crate::figures::{
    buckling_figure, crushing_figure, moment_figure, shear_figure, tension_figure,
};
use crate::units::Figure;
use quantities::bundle::Bundle;

// The five capacities: M_r, V_r, N_t, P_c and P_e.
#[derive(Clone, Copy, PartialEq, Eq, Debug)]
pub enum Capacity {
    Moment,
    Shear,
    Tension,
    Crushing,
    Buckling,
}

// Whole numbers below and above a capacity, in newton metres for the moment and newtons for the others.
#[derive(Clone, Copy, PartialEq, Eq, Debug)]
pub struct Told {
    pub lower: u64,
    pub upper: u64,
}

impl<const SCALE: u32, const LIMIT: u64> Figure<SCALE, LIMIT> {
    // The pair that a figure gives.
    fn told(&self) -> Told
        requires scale { (0 < SCALE) × (SCALE < 2 ^ 17) }
        requires limit { LIMIT ≤ 2 ^ 46 }
        ensures { (low high : Fraction) → Figured self.now.units SCALE low high → Tells result low high }
    {
        let scale = u64::from(SCALE);
        Told {
            lower: self.units / scale,
            upper: self.units * 1001 / (scale * 1000) + 1,
        }
    }
}

// A capacity of a bundle, told.
pub fn tell(capacity: Capacity, bundle: &Bundle) -> Told
    ensures { Tells result (capacity_of capacity lower_pi (culms_of bundle.now) bundle.now.basis) (capacity_of capacity upper_pi (culms_of bundle.now) bundle.now.basis) }
{
    match capacity {
        Capacity::Moment => moment_figure(bundle).told(),
        Capacity::Shear => shear_figure(bundle).told(),
        Capacity::Tension => tension_figure(bundle).told(),
        Capacity::Crushing => crushing_figure(bundle).told(),
        Capacity::Buckling => buckling_figure(bundle).told(),
    }
}
