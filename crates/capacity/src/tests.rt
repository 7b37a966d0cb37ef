use crate::told::{Capacity, tell};
use quantities::basis::DesignBasis;
use quantities::bundle::Bundle;
use quantities::class::{RawClass, RawFactors, ServiceClass};
use quantities::duration::Duration;
use quantities::fault::MeasureFault;
use quantities::grade::{Grade, RawGrade};
use quantities::numbers::EffectiveLength;
use quantities::readings::{RawReadings, Readings};
use std::test::Fail;

fn basis(duration: Duration) -> Result<DesignBasis, MeasureFault> {
    let grade = RawGrade {
        bending: 658,
        compression: 497,
        tension: 984,
        shear: 79,
        modulus: 1300,
    };
    let strength = RawFactors {
        permanent: 55,
        transient: 65,
        instantaneous: 85,
    };
    let modulus = RawFactors {
        permanent: 45,
        transient: 95,
        instantaneous: 100,
    };
    Ok(DesignBasis {
        grade: Grade::measured(3, grade)?,
        class: ServiceClass::measured(3, RawClass { strength, modulus })?,
        duration,
        length: EffectiveLength::in_field(3, 2000)?,
    })
}

fn straight_culm(diameter: u32, wall: u32) -> Result<Readings, MeasureFault> {
    let raw = RawReadings {
        diameter,
        wall,
        straightness: 100,
    };
    Readings::measured(4, raw)
}

// Whether a value between two whole numbers lies in the told pair.
fn lies_in(capacity: Capacity, bundle: &Bundle, below: u64, above: u64) -> bool {
    let told = tell(capacity, bundle);
    told.lower <= below && above <= told.upper
}

// Values worked out elsewhere: 1458.826, 2153.457, 106418.938, 53750.216 and 92960.693.
#[test]
fn each_capacity_of_the_worked_culm_lies_in_its_told_pair(rt: HostRuntime) -> Result<(), Fail> {
    let bundle = Bundle::of(straight_culm(1000, 100)?, basis(Duration::Instantaneous)?);
    assert!(rt; lies_in(Capacity::Moment, &bundle, 1458, 1459));
    assert!(rt; lies_in(Capacity::Shear, &bundle, 2153, 2154));
    assert!(rt; lies_in(Capacity::Tension, &bundle, 106418, 106419));
    assert!(rt; lies_in(Capacity::Crushing, &bundle, 53750, 53751));
    assert!(rt; lies_in(Capacity::Buckling, &bundle, 92960, 92961));
    Ok(())
}

#[test]
fn three_narrow_culms_carry_1000_newton_metres_and_two_do_not(rt: HostRuntime) -> Result<(), Fail> {
    let culm = straight_culm(700, 70)?;
    let mut bundle = Bundle::of(culm, basis(Duration::Transient)?);
    bundle.add(culm)?;
    assert!(rt; tell(Capacity::Moment, &bundle).upper < 1000);
    bundle.add(culm)?;
    assert!(rt; 1000 <= tell(Capacity::Moment, &bundle).lower);
    Ok(())
}
