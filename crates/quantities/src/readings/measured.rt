ghost use Rattle.std.specs.Prelude.{◌≡◌};
ghost use Rattle.quantities.specs.Measures.{readings, third_of};

use crate::fault::MeasureFault;
use crate::numbers::Percent;
use crate::readings::{Diameter, DiameterScale, RawReadings, Readings, Wall, WallScale};

impl Readings {
    // The readings of which the diameter stands in the field `first`, then wall and straightness.
    pub fn measured(first: u8, raw: RawReadings) -> Result<Readings, MeasureFault>
        ensures { result ≡ readings first raw }
    {
        let first = u16::from(first);
        DiameterScale::in_field(first, raw.diameter)?;
        WallScale::in_field(first + 1, raw.wall)?;
        let straightness = Percent::in_field(first + 2, raw.straightness)?;
        let diameter = Diameter::or_fault(raw.diameter, MeasureFault::AtStop { field: first })?;
        let wall = Wall::or_fault(raw.wall, MeasureFault::AtStop { field: first + 1 })?;
        Readings::of_parts(diameter, wall, straightness, first + 1)
    }

    // The parts together, if the wall, which stands in the field `field`, is at most a third of the diameter.
    fn of_parts(
        diameter: Diameter,
        wall: Wall,
        straightness: Percent,
        field: u16,
    ) -> Result<Readings, MeasureFault>
        ensures { result ≡ third_of diameter wall straightness (MeasureFault.WallTooThick field) }
    {
        if diameter.value < 3 * wall.value {
            return Err(MeasureFault::WallTooThick { field });
        }
        Ok(Readings {
            diameter,
            wall,
            straightness,
        })
    }
}

#[cfg(test)]
mod tests {
    use super::*;

    // Number and place of the refusal of readings from field 4 on, or zeros where they are allowed.
    fn refusal(diameter: u32, wall: u32, straightness: u32) -> (u16, u16) {
        let raw = RawReadings {
            diameter,
            wall,
            straightness,
        };
        Readings::measured(4, raw).map_or_else(|fault| (fault.number(), fault.place()), |_| (0, 0))
    }

    #[test]
    fn a_wall_may_be_a_third_of_the_diameter_and_no_more(rt: HostRuntime) {
        assert_eq!(rt; refusal(897, 299, 100), (0, 0));
        assert_eq!(rt; refusal(896, 299, 100), (7, 5));
    }

    #[test]
    fn a_wall_is_off_the_scale_or_at_the_stop_or_allowed(rt: HostRuntime) {
        assert_eq!(rt; refusal(1000, 29, 100), (5, 5));
        assert_eq!(rt; refusal(1000, 30, 100), (6, 5));
        assert_eq!(rt; refusal(1000, 31, 100), (0, 0));
    }

    #[test]
    fn a_diameter_has_a_stop_at_either_end(rt: HostRuntime) {
        assert_eq!(rt; refusal(300, 100, 100), (6, 4));
        assert_eq!(rt; refusal(2000, 100, 100), (6, 4));
    }

    #[test]
    fn a_straightness_may_be_at_either_end_and_its_range_comes_before_a_stop(rt: HostRuntime) {
        assert_eq!(rt; refusal(1000, 100, 10), (0, 0));
        assert_eq!(rt; refusal(1000, 100, 100), (0, 0));
        assert_eq!(rt; refusal(1000, 30, 9), (5, 6));
    }
}
