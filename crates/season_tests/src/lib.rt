// An afternoon of two crews on one book. Only tests.

#![tactic(auto)]

#[cfg(test)]
mod tests {
    use frame_book::book::Book;
    use ledger::answer::{Answer, Counts};
    use ledger::call::{Call, Opening};
    use ledger::culm::{Culm, Place};
    use ledger::fault::BookFault;
    use ledger::member::{Member, Stage};
    use quantities::class::{RawClass, RawFactors, ServiceClass};
    use quantities::duration::Duration;
    use quantities::fault::MeasureFault;
    use quantities::forces::{Forces, RawForces};
    use quantities::grade::{Grade, RawGrade};
    use quantities::numbers::EffectiveLength;
    use quantities::readings::{RawReadings, Readings};
    use season::play;
    use shop_code::shop::shop_code;
    use std::test::Fail;
    use stock::row::CulmRow;

    const GRADE: RawGrade = RawGrade {
        bending: 658,
        compression: 497,
        tension: 984,
        shear: 79,
        modulus: 1300,
    };

    const CLASS: RawClass = RawClass {
        strength: RawFactors {
            permanent: 55,
            transient: 65,
            instantaneous: 85,
        },
        modulus: RawFactors {
            permanent: 45,
            transient: 95,
            instantaneous: 100,
        },
    };

    fn readings(diameter: u32, wall: u32) -> RawReadings {
        RawReadings {
            diameter,
            wall,
            straightness: 100,
        }
    }

    // Forces with no axial one.
    fn forces(shear: u32, moment: u32) -> RawForces {
        RawForces {
            axial: 0,
            shear,
            moment,
        }
    }

    // What a caller's rows hold before a book uses them is of no account.
    fn unused_culm() -> Result<CulmRow, MeasureFault> {
        Ok(CulmRow {
            culm: Culm {
                number: 1,
                grade: 1,
                strengths: Grade::measured(3, GRADE)?,
                readings: Readings::measured(4, readings(700, 70))?,
                place: Place::Rack,
            },
            aside: false,
        })
    }

    fn unused_member() -> Result<Member, MeasureFault> {
        Ok(Member {
            number: 1,
            length: EffectiveLength::in_field(3, 2000)?,
            class: 2,
            factors: ServiceClass::measured(3, CLASS)?,
            duration: Duration::Transient,
            forces: Forces::measured(6, forces(0, 0))?,
            stage: Stage::Standing,
        })
    }

    fn add(culm: u32, grade: u32, diameter: u32, wall: u32) -> Call {
        Call::AddCulm {
            culm,
            grade,
            readings: readings(diameter, wall),
        }
    }

    fn open(member: u32, shear: u32, moment: u32) -> Call {
        Call::Open(Opening {
            member,
            length: 2000,
            class: 2,
            duration: Duration::Transient,
            forces: forces(shear, moment),
        })
    }

    fn load(member: u32, duration: Duration, shear: u32, moment: u32) -> Call {
        Call::Load {
            member,
            duration,
            forces: forces(shear, moment),
        }
    }

    fn define_grade() -> Call {
        Call::DefineGrade {
            grade: 1,
            values: GRADE,
        }
    }

    // A call, with the number and place of its refusal; both 0 where it is accepted.
    #[derive(Clone, Copy)]
    struct Step(Call, u16, u32);

    // Number and place of a refusal; both 0 where the call is accepted.
    fn refusal(answer: &Result<Answer, BookFault>) -> (u16, u32) {
        match answer {
            Ok(_) => (0, 0),
            Err(fault) => (fault.number(), fault.place()),
        }
    }

    // Member 100 is the first crew's, member 200 the second's.
    fn afternoon() -> [Step; 44] {
        [
            Step(define_grade(), 0, 0),
            Step(define_grade(), 8, 0),
            Step(
                Call::DefineClass {
                    class: 2,
                    factors: CLASS,
                },
                0,
                0,
            ),
            Step(add(5, 1, 700, 70), 0, 0),
            Step(add(6, 1, 700, 70), 0, 0),
            Step(add(7, 1, 700, 70), 0, 0),
            Step(add(8, 1, 700, 70), 0, 0),
            Step(add(9, 1, 700, 30), 6, 5),
            Step(add(9, 1, 896, 299), 7, 5),
            Step(add(9, 2, 700, 70), 9, 0),
            Step(add(5, 1, 700, 70), 10, 0),
            Step(open(100, 1700, 1000), 0, 0),
            Step(open(100, 1700, 1000), 14, 0),
            Step(Call::Judge { member: 100 }, 22, 0),
            Step(
                Call::Hold {
                    member: 100,
                    culm: 5,
                },
                0,
                0,
            ),
            Step(
                Call::Hold {
                    member: 100,
                    culm: 6,
                },
                0,
                0,
            ),
            Step(Call::Judge { member: 100 }, 23, 1),
            Step(Call::Set { member: 100 }, 18, 0),
            Step(open(200, 600, 300), 0, 0),
            Step(
                Call::Hold {
                    member: 200,
                    culm: 5,
                },
                12,
                0,
            ),
            Step(Call::CheckIn { member: 200 }, 0, 0),
            Step(
                Call::Hold {
                    member: 200,
                    culm: 8,
                },
                17,
                0,
            ),
            Step(Call::CheckOut { member: 200 }, 0, 0),
            Step(Call::CheckOut { member: 200 }, 17, 0),
            Step(
                Call::Hold {
                    member: 200,
                    culm: 8,
                },
                0,
                0,
            ),
            Step(
                Call::Hold {
                    member: 100,
                    culm: 7,
                },
                0,
                0,
            ),
            Step(Call::Judge { member: 100 }, 0, 0),
            Step(
                Call::Free {
                    member: 100,
                    culm: 7,
                },
                18,
                0,
            ),
            Step(Call::Judge { member: 200 }, 0, 0),
            Step(Call::Set { member: 200 }, 0, 0),
            Step(Call::ScrapCulm { culm: 8 }, 12, 0),
            Step(Call::Set { member: 100 }, 0, 0),
            Step(
                Call::JudgeWithout {
                    member: 100,
                    culm: 5,
                },
                23,
                1,
            ),
            Step(
                Call::JudgeWithout {
                    member: 100,
                    culm: 8,
                },
                21,
                0,
            ),
            Step(
                Call::JudgeWithout {
                    member: 200,
                    culm: 8,
                },
                22,
                0,
            ),
            Step(load(100, Duration::Transient, 2200, 1640), 23, 1),
            Step(load(100, Duration::Instantaneous, 1800, 1000), 0, 0),
            Step(
                Call::JudgeWithout {
                    member: 100,
                    culm: 5,
                },
                0,
                0,
            ),
            Step(Call::Strike { member: 100 }, 0, 0),
            Step(Call::LookMember { member: 100 }, 15, 0),
            Step(Call::DropTicket { member: 100 }, 17, 0),
            Step(Call::ScrapCulm { culm: 5 }, 0, 0),
            Step(Call::LookCulm { culm: 5 }, 11, 0),
            Step(Call::ScrapCulm { culm: 4097 }, 5, 2),
        ]
    }

    #[test]
    fn every_call_of_the_afternoon_is_answered_as_the_table_says(
        rt: HostRuntime,
    ) -> Result<(), Fail> {
        let mut culms = [unused_culm()?; 8];
        let mut members = [unused_member()?; 4];
        let mut book = Book::new(&mut culms, &mut members);
        let steps = afternoon();
        let calls: Vec<Call> = steps.iter().map(|step| step.0).collect(rt.alloc())?;
        let given = play(rt.alloc(), &shop_code(), &mut book, &calls)?;
        assert!(rt; given.len() == 44);
        for (answer, step) in given.iter().zip(&steps) {
            assert_eq!(rt; refusal(answer), (step.1, step.2));
        }
        let left = Counts {
            rack: 2,
            held: 0,
            standing: 1,
            members: 1,
            tickets: 0,
        };
        assert_eq!(rt; book.counts(), left);
        Ok(())
    }
}
