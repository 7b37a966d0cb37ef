ghost use Rattle.std.specs.Prelude.{◌≡◌};
ghost use Rattle.line_format.specs.Lines.{placed, grade_fields, class_fields, culm_fields, open_fields, load_fields, bundle_fields, said};
ghost use Rattle.line_format.specs.Requests.{duration_in, number_field, signed_field, duration_field, grade_call, class_call, culm_call, open_call, load_call, member_and_culm_call, verb_in, call_in, request_of};

use crate::fault::LineFault;
use crate::line::{
    ClassFields, CulmFields, Field, GradeFields, Line, LoadFields, OpenFields, read,
};
use crate::verb::Verb;
use ledger::call::{Call, Opening};
use line_fields::numbers::{number, signed};
use quantities::class::{RawClass, RawFactors};
use quantities::duration::Duration;
use quantities::forces::RawForces;
use quantities::grade::RawGrade;
use quantities::readings::RawReadings;

/// What a line asks for, by plain numbers that nobody has checked.
#[derive(Clone, Copy)]
pub struct Request {
    pub verb: Verb,
    pub call: Call,
}

// What a field writes, or the refusal at its place.
impl Field<'_> {
    fn bad(self) -> LineFault
        ensures { result ≡ LineFault.BadField self.entry.place }
    {
        LineFault::BadField { place: self.place }
    }

    fn number(self) -> Result<u32, LineFault>
        ensures { result ≡ number_field (placed self.entry) }
    {
        number(self.text).ok_or(self.bad())
    }

    fn signed(self) -> Result<i32, LineFault>
        ensures { result ≡ signed_field (placed self.entry) }
    {
        signed(self.text).ok_or(self.bad())
    }

    fn duration(self) -> Result<Duration, LineFault>
        ensures { result ≡ duration_field (placed self.entry) }
    {
        duration_of(self.text).ok_or(self.bad())
    }
}

fn duration_of(text: &[u8]) -> Option<Duration>
    ensures { result ≡ duration_in text.now }
{
    match text {
        [letter] => Duration::try_from(*letter).ok(),
        _ => None,
    }
}

// The call that the fields make, read from left to right: one function a kind of line, by the names of its fields.

fn grade_call(fields: GradeFields<'_>) -> Result<Call, LineFault>
    ensures { result ≡ grade_call (grade_fields fields.entry) }
{
    Ok(Call::DefineGrade {
        grade: fields.grade.number()?,
        values: RawGrade {
            bending: fields.bending.number()?,
            compression: fields.compression.number()?,
            tension: fields.tension.number()?,
            shear: fields.shear.number()?,
            modulus: fields.modulus.number()?,
        },
    })
}

fn class_call(fields: ClassFields<'_>) -> Result<Call, LineFault>
    ensures { result ≡ class_call (class_fields fields.entry) }
{
    Ok(Call::DefineClass {
        class: fields.class.number()?,
        factors: RawClass {
            strength: RawFactors {
                permanent: fields.strength_permanent.number()?,
                transient: fields.strength_transient.number()?,
                instantaneous: fields.strength_instantaneous.number()?,
            },
            modulus: RawFactors {
                permanent: fields.modulus_permanent.number()?,
                transient: fields.modulus_transient.number()?,
                instantaneous: fields.modulus_instantaneous.number()?,
            },
        },
    })
}

fn culm_call(fields: CulmFields<'_>) -> Result<Call, LineFault>
    ensures { result ≡ culm_call (culm_fields fields.entry) }
{
    Ok(Call::AddCulm {
        culm: fields.culm.number()?,
        grade: fields.grade.number()?,
        readings: RawReadings {
            diameter: fields.diameter.number()?,
            wall: fields.wall.number()?,
            straightness: fields.straightness.number()?,
        },
    })
}

fn open_call(fields: OpenFields<'_>) -> Result<Call, LineFault>
    ensures { result ≡ open_call (open_fields fields.entry) }
{
    Ok(Call::Open(Opening {
        member: fields.member.number()?,
        length: fields.length.number()?,
        class: fields.class.number()?,
        duration: fields.duration.duration()?,
        forces: RawForces {
            axial: fields.axial.signed()?,
            shear: fields.shear.number()?,
            moment: fields.moment.number()?,
        },
    }))
}

fn load_call(fields: LoadFields<'_>) -> Result<Call, LineFault>
    ensures { result ≡ load_call (load_fields fields.entry) }
{
    Ok(Call::Load {
        member: fields.member.number()?,
        duration: fields.duration.duration()?,
        forces: RawForces {
            axial: fields.axial.signed()?,
            shear: fields.shear.number()?,
            moment: fields.moment.number()?,
        },
    })
}

impl Line<'_> {
    pub fn verb(self) -> Verb
        ensures { result ≡ verb_in (said self.entry) }
    {
        match self {
            Line::Grade(_) => Verb::Grade,
            Line::Class(_) => Verb::Class,
            Line::Culm(_) => Verb::Culm,
            Line::Scrap(_) => Verb::Scrap,
            Line::Open(_) => Verb::Open,
            Line::Hold(_) => Verb::Hold,
            Line::Free(_) => Verb::Free,
            Line::Judge(_) => Verb::Judge,
            Line::Set(_) => Verb::Set,
            Line::Drop(_) => Verb::Drop,
            Line::Strike(_) => Verb::Strike,
            Line::Load(_) => Verb::Load,
            Line::Without(_) => Verb::Without,
            Line::Tell => Verb::Tell,
        }
    }

    /// The call that the line asks for, or the first field that is no number.
    pub fn call(self) -> Result<Call, LineFault>
        ensures { result ≡ call_in (said self.entry) }
    {
        match self {
            Line::Grade(fields) => grade_call(fields),
            Line::Class(fields) => class_call(fields),
            Line::Culm(fields) => culm_call(fields),
            Line::Scrap(culm) => Ok(Call::ScrapCulm {
                culm: culm.number()?,
            }),
            Line::Open(fields) => open_call(fields),
            Line::Hold(fields) => Ok(Call::Hold {
                member: fields.member.number()?,
                culm: fields.culm.number()?,
            }),
            Line::Free(fields) => Ok(Call::Free {
                member: fields.member.number()?,
                culm: fields.culm.number()?,
            }),
            Line::Judge(member) => Ok(Call::Judge {
                member: member.number()?,
            }),
            Line::Set(member) => Ok(Call::Set {
                member: member.number()?,
            }),
            Line::Drop(member) => Ok(Call::DropTicket {
                member: member.number()?,
            }),
            Line::Strike(member) => Ok(Call::Strike {
                member: member.number()?,
            }),
            Line::Load(fields) => load_call(fields),
            Line::Without(fields) => Ok(Call::JudgeWithout {
                member: fields.member.number()?,
                culm: fields.culm.number()?,
            }),
            Line::Tell => Ok(Call::LookCounts),
        }
    }
}

/// The request that a line of bytes makes, or why it makes none.
pub fn parse(line: &[u8]) -> Result<Request, LineFault>
    ensures { result ≡ request_of line.now }
{
    let line = read(line)?;
    Ok(Request {
        verb: line.verb(),
        call: line.call()?,
    })
}
