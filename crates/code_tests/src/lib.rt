// Design codes on worked examples. Only tests.

#![tactic(auto)]

#[cfg(test)]
mod tests {
    use design_code::appraisal::appraise;
    use design_code::joined::Joined;
    use design_code::verdict::{Refused, Verdict};
    use quantities::basis::DesignBasis;
    use quantities::bundle::Bundle;
    use quantities::class::{RawClass, RawFactors, ServiceClass};
    use quantities::duration::Duration;
    use quantities::fault::MeasureFault;
    use quantities::forces::{Forces, RawForces};
    use quantities::grade::{Grade, RawGrade};
    use quantities::numbers::EffectiveLength;
    use quantities::readings::{RawReadings, Readings};
    use shop_code::bending::BendingCode;
    use shop_code::compression::CompressionCode;
    use shop_code::shear::ShearCode;
    use shop_code::shop::shop_verdict;
    use std::test::Fail;

    // Grade, class and length of all the examples.
    fn basis(duration: Duration) -> Result<DesignBasis, MeasureFault> {
        let grade = RawGrade {
            bending: 658,
            compression: 497,
            tension: 984,
            shear: 79,
            modulus: 1300,
        };
        let class = RawClass {
            strength: RawFactors {
                permanent: 55,
                transient: 65,
                instantaneous: 85,
            },
            modulus: RawFactors {
                permanent: 45,
                transient: 95,
                instantaneous: 100,
            },
        };
        Ok(DesignBasis {
            grade: Grade::measured(3, grade)?,
            class: ServiceClass::measured(3, class)?,
            duration,
            length: EffectiveLength::in_field(3, 2000)?,
        })
    }

    fn straight_culm(diameter: u32, wall: u32) -> Result<Readings, MeasureFault> {
        let raw = RawReadings {
            diameter,
            wall,
            straightness: 100,
        };
        Readings::measured(4, raw)
    }

    fn forces(axial: i32, shear: u32, moment: u32) -> Result<Forces, MeasureFault> {
        let raw = RawForces {
            axial,
            shear,
            moment,
        };
        Forces::measured(6, raw)
    }

    // Refused by a clause.
    const fn by(clause: u32) -> Verdict {
        Err(Refused { clause })
    }

    // One culm of 100.0 mm with a wall of 10.0 mm under an instantaneous load.
    fn worked_culm() -> Result<Bundle, MeasureFault> {
        let culm = straight_culm(1000, 100)?;
        Ok(Bundle::of(culm, basis(Duration::Instantaneous)?))
    }

    // So many Moso culms of 70.0 mm with a wall of 7.0 mm.
    fn moso_culms(count: u32, duration: Duration) -> Result<Bundle, Fail> {
        let culm = straight_culm(700, 70)?;
        let mut bundle = Bundle::of(culm, basis(duration)?);
        for _ in 1..count {
            bundle.add(culm)?;
        }
        Ok(bundle)
    }

    // Axial force, shear force and moment, with the verdict of the shop code on the worked culm.
    #[derive(Clone, Copy)]
    struct Load(i32, u32, u32, Verdict);

    // So many culms under a load of a duration, shear force and moment, with the shop code's verdict.
    #[derive(Clone, Copy)]
    struct Purlin(u32, Duration, u32, u32, Verdict);

    #[test]
    fn the_worked_culm_bears_what_is_within_every_clause_and_no_more(
        rt: HostRuntime,
    ) -> Result<(), Fail> {
        let culm = worked_culm()?;
        let loads = [
            Load(0, 0, 1456, Ok(())),
            Load(0, 2150, 0, Ok(())),
            Load(-106300, 0, 0, Ok(())),
            Load(45100, 0, 0, Ok(())),
            Load(20000, 0, 630, Ok(())),
            Load(0, 0, 1459, by(1)),
            Load(0, 2154, 0, by(2)),
            Load(-106500, 0, 0, by(3)),
            Load(45200, 0, 0, by(4)),
            Load(20000, 0, 645, by(4)),
        ];
        for load in &loads {
            let forces = forces(load.0, load.1, load.2)?;
            assert_eq!(rt; shop_verdict(&culm, forces), load.3);
        }
        Ok(())
    }

    // Where a load is given for two durations, the transient one decides: with a culm too few the
    // instantaneous one is still met.
    #[test]
    fn moso_purlins_need_as_many_culms_as_published(rt: HostRuntime) -> Result<(), Fail> {
        let purlins = [
            Purlin(3, Duration::Instantaneous, 1800, 1000, Ok(())),
            Purlin(3, Duration::Transient, 1700, 1000, Ok(())),
            Purlin(2, Duration::Instantaneous, 1800, 1000, Ok(())),
            Purlin(2, Duration::Transient, 1700, 1000, by(1)),
            Purlin(4, Duration::Instantaneous, 2200, 1640, Ok(())),
            Purlin(4, Duration::Transient, 2200, 1640, Ok(())),
            Purlin(3, Duration::Instantaneous, 2200, 1640, Ok(())),
            Purlin(3, Duration::Transient, 2200, 1640, by(1)),
            Purlin(1, Duration::Instantaneous, 600, 300, Ok(())),
            Purlin(1, Duration::Transient, 600, 300, Ok(())),
            Purlin(4, Duration::Permanent, 2000, 1500, Ok(())),
            Purlin(3, Duration::Permanent, 2000, 1500, by(1)),
        ];
        for purlin in &purlins {
            let forces = forces(0, purlin.2, purlin.3)?;
            let bundle = moso_culms(purlin.0, purlin.1)?;
            assert_eq!(rt; shop_verdict(&bundle, forces), purlin.4);
        }
        Ok(())
    }

    #[test]
    fn bending_joined_with_itself_asks_for_nothing_but_bending(
        rt: HostRuntime,
    ) -> Result<(), Fail> {
        let code = Joined(BendingCode, BendingCode);
        let culm = worked_culm()?;
        let sheared = forces(45200, 2154, 1456)?;
        let bent = forces(0, 0, 1459)?;
        assert_eq!(rt; appraise(&code, &culm, sheared), Ok(()));
        assert_eq!(rt; appraise(&code, &culm, bent), by(1));
        Ok(())
    }

    #[test]
    fn of_joined_codes_the_first_to_refuse_decides(rt: HostRuntime) -> Result<(), Fail> {
        let culm = worked_culm()?;
        let forces = forces(45200, 2154, 1459)?;
        let backwards = Joined(CompressionCode, Joined(ShearCode, BendingCode));
        assert_eq!(rt; shop_verdict(&culm, forces), by(1));
        assert_eq!(rt; appraise(&backwards, &culm, forces), by(4));
        assert_eq!(rt; appraise(&backwards.1, &culm, forces), by(2));
        Ok(())
    }

    // Where a measure is refused for a field out of its range, that field, else 0.
    fn out_of_range<T: Drop>(measured: Result<T, MeasureFault>) -> u16 {
        match measured {
            Err(MeasureFault::OutOfRange { field }) => field,
            _ => 0,
        }
    }

    fn grade(bending: u32, compression: u32, tension: u32, shear: u32, modulus: u32) -> u16 {
        let raw = RawGrade {
            bending,
            compression,
            tension,
            shear,
            modulus,
        };
        out_of_range(Grade::measured(3, raw))
    }

    #[test]
    fn strengths_moduli_and_forces_end_where_the_rules_say(rt: HostRuntime) {
        assert_eq!(rt; grade(10, 10, 10, 10, 200), 0);
        assert_eq!(rt; grade(2000, 2000, 2000, 2000, 2000), 0);
        assert_eq!(rt; grade(9, 10, 10, 10, 200), 3);
        assert_eq!(rt; grade(2000, 2001, 2000, 2000, 2000), 4);
        assert_eq!(rt; grade(10, 10, 9, 10, 200), 5);
        assert_eq!(rt; grade(2000, 2000, 2000, 2001, 2000), 6);
        assert_eq!(rt; grade(10, 10, 10, 10, 199), 7);
        assert_eq!(rt; grade(2000, 2000, 2000, 2000, 2001), 7);
        assert_eq!(rt; out_of_range(forces(200000, 200000, 50000)), 0);
        assert_eq!(rt; out_of_range(forces(-200000, 0, 0)), 0);
        assert_eq!(rt; out_of_range(forces(200001, 0, 0)), 6);
        assert_eq!(rt; out_of_range(forces(-200001, 0, 0)), 6);
        assert_eq!(rt; out_of_range(forces(0, 200001, 0)), 7);
        assert_eq!(rt; out_of_range(forces(0, 0, 50001)), 8);
    }
}
