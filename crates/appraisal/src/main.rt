// Appraises one bundle of culms and prints each step, from the readings to the verdict.

#![tactic(auto)]

mod report;

use quantities::basis::DesignBasis;
use quantities::bundle::Bundle;
use quantities::class::{RawClass, RawFactors, ServiceClass};
use quantities::duration::Duration;
use quantities::fault::MeasureFault;
use quantities::forces::{Forces, RawForces};
use quantities::grade::{Grade, RawGrade};
use quantities::numbers::EffectiveLength;
use quantities::readings::{RawReadings, Readings};

// A bundle and the forces on it.
#[derive(Clone, Copy)]
struct Member {
    bundle: Bundle,
    forces: Forces,
}

// The worked culm: 100.0 mm with a wall of 10.0 mm, straight, 2 m long, under an instantaneous load.
fn worked_member() -> Result<Member, MeasureFault> {
    let grade = RawGrade {
        bending: 658,
        compression: 497,
        tension: 984,
        shear: 79,
        modulus: 1300,
    };
    let class = RawClass {
        strength: RawFactors {
            permanent: 55,
            transient: 65,
            instantaneous: 85,
        },
        modulus: RawFactors {
            permanent: 45,
            transient: 95,
            instantaneous: 100,
        },
    };
    let readings = RawReadings {
        diameter: 1000,
        wall: 100,
        straightness: 100,
    };
    let forces = RawForces {
        axial: 20000,
        shear: 0,
        moment: 645,
    };
    let basis = DesignBasis {
        grade: Grade::measured(3, grade)?,
        class: ServiceClass::measured(3, class)?,
        duration: Duration::Instantaneous,
        length: EffectiveLength::in_field(3, 2000)?,
    };
    let culm = Readings::measured(4, readings)?;
    let forces = Forces::measured(6, forces)?;
    Ok(Member {
        bundle: Bundle::of(culm, basis),
        forces,
    })
}

fn run(rt: &HostRuntime) -> anyhow::Result<()> {
    match worked_member() {
        Ok(member) => report::appraise(rt, &member.bundle, member.forces),
        Err(fault) => {
            let number = fault.number();
            let place = fault.place();
            println!(rt; "NO\t{number}\t{place}")?;
            Ok(())
        }
    }
}

fn main(rt: HostRuntime) -> anyhow::Result<()> {
    run(&rt)
}
