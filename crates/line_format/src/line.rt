ghost use Rattle.std.specs.Prelude.{◌≡◌, ◌+◌, ◌-◌, ◌<◌, [], drop, slice_index_or};
ghost use Rattle.line_fields.specs.Cuts.{fields_left};
ghost use Rattle.line_format.specs.Lines.{field, says, placed_first, placed, one_field, grade_fields, class_fields, culm_fields, open_fields, load_fields, bundle_fields, said, seen, read_line};
ghost use Rattle.line_format.specs.Verbs.{count_of};

use crate::fault::LineFault;
use crate::verb::Verb;
use line_fields::fields::{behind_first, cut};

// The line service has the same limit, and neither crate knows the other.
const LONGEST_LINE: usize = 80;

/// The bytes of a field, and which field of its line it is; the verb is field 1.
#[derive(Clone, Copy)]
pub struct Field<'a> {
    pub place: u32,
    pub text: &'a [u8],
}

#[derive(Clone, Copy)]
pub struct GradeFields<'a> {
    pub grade: Field<'a>,
    pub bending: Field<'a>,
    pub compression: Field<'a>,
    pub tension: Field<'a>,
    pub shear: Field<'a>,
    pub modulus: Field<'a>,
}

#[derive(Clone, Copy)]
pub struct ClassFields<'a> {
    pub class: Field<'a>,
    pub strength_permanent: Field<'a>,
    pub strength_transient: Field<'a>,
    pub strength_instantaneous: Field<'a>,
    pub modulus_permanent: Field<'a>,
    pub modulus_transient: Field<'a>,
    pub modulus_instantaneous: Field<'a>,
}

#[derive(Clone, Copy)]
pub struct CulmFields<'a> {
    pub culm: Field<'a>,
    pub grade: Field<'a>,
    pub diameter: Field<'a>,
    pub wall: Field<'a>,
    pub straightness: Field<'a>,
}

#[derive(Clone, Copy)]
pub struct OpenFields<'a> {
    pub member: Field<'a>,
    pub length: Field<'a>,
    pub class: Field<'a>,
    pub duration: Field<'a>,
    pub axial: Field<'a>,
    pub shear: Field<'a>,
    pub moment: Field<'a>,
}

#[derive(Clone, Copy)]
pub struct LoadFields<'a> {
    pub member: Field<'a>,
    pub duration: Field<'a>,
    pub axial: Field<'a>,
    pub shear: Field<'a>,
    pub moment: Field<'a>,
}

/// The fields of a line on a culm in the bundle of a member.
#[derive(Clone, Copy)]
pub struct BundleFields<'a> {
    pub member: Field<'a>,
    pub culm: Field<'a>,
}

/// A line by its verb, with its fields, before any of them is a number.
#[derive(Clone, Copy)]
pub enum Line<'a> {
    Grade(GradeFields<'a>),
    Class(ClassFields<'a>),
    Culm(CulmFields<'a>),
    Scrap(Field<'a>),
    Open(OpenFields<'a>),
    Hold(BundleFields<'a>),
    Free(BundleFields<'a>),
    Judge(Field<'a>),
    Set(Field<'a>),
    Drop(Field<'a>),
    Strike(Field<'a>),
    Load(LoadFields<'a>),
    Without(BundleFields<'a>),
    Tell,
}

// The fields behind a verb that were not taken yet, and the place of the next.
#[derive(Clone, Copy)]
struct Fields<'a> {
    left: Option<&'a [u8]>,
    place: u32,
}

impl<'a> Fields<'a> {
    // The next field, empty where nothing is left.
    fn next(&mut self) -> Field<'a>
        requires { self.old.place < 9 }
        ensures field { placed result ≡ field self.old.place (slice_index_or (fields_left self.old.left) 0 []) }
        ensures left { fields_left self.new.left ≡ drop 1 (fields_left self.old.left) }
        ensures place { self.new.place ≡ self.old.place + 1 }
    {
        let place = self.place;
        self.place += 1;
        match self.left {
            Some(line) => {
                let (text, left) = cut(line);
                self.left = left;
                Field { place, text }
            }
            None => Field { place, text: b"" },
        }
    }

    // The fields behind the verb, which is field 1.
    fn behind(left: Option<&'a [u8]>) -> Fields<'a>
        ensures left { fields_left result.left ≡ fields_left left.entry }
        ensures place { result.place ≡ 2 }
    {
        Fields { left, place: 2 }
    }

    // The field of a line that has only one behind its verb.
    // This builder and those below each name the fields of their kind of line, which one function over their number could not.
    fn only(left: Option<&'a [u8]>) -> Field<'a>
        ensures { one_field result ≡ placed_first 1 2 (fields_left left.entry) }
    {
        Fields::behind(left).next()
    }

    fn bundle(left: Option<&'a [u8]>) -> BundleFields<'a>
        ensures { bundle_fields result ≡ placed_first 2 2 (fields_left left.entry) }
    {
        let mut fields = Fields::behind(left);
        BundleFields {
            member: fields.next(),
            culm: fields.next(),
        }
    }

    fn culm(left: Option<&'a [u8]>) -> CulmFields<'a>
        ensures { culm_fields result ≡ placed_first 5 2 (fields_left left.entry) }
    {
        let mut fields = Fields::behind(left);
        CulmFields {
            culm: fields.next(),
            grade: fields.next(),
            diameter: fields.next(),
            wall: fields.next(),
            straightness: fields.next(),
        }
    }

    fn load(left: Option<&'a [u8]>) -> LoadFields<'a>
        ensures { load_fields result ≡ placed_first 5 2 (fields_left left.entry) }
    {
        let mut fields = Fields::behind(left);
        LoadFields {
            member: fields.next(),
            duration: fields.next(),
            axial: fields.next(),
            shear: fields.next(),
            moment: fields.next(),
        }
    }

    fn grade(left: Option<&'a [u8]>) -> GradeFields<'a>
        ensures { grade_fields result ≡ placed_first 6 2 (fields_left left.entry) }
    {
        let mut fields = Fields::behind(left);
        GradeFields {
            grade: fields.next(),
            bending: fields.next(),
            compression: fields.next(),
            tension: fields.next(),
            shear: fields.next(),
            modulus: fields.next(),
        }
    }

    fn class(left: Option<&'a [u8]>) -> ClassFields<'a>
        ensures { class_fields result ≡ placed_first 7 2 (fields_left left.entry) }
    {
        let mut fields = Fields::behind(left);
        ClassFields {
            class: fields.next(),
            strength_permanent: fields.next(),
            strength_transient: fields.next(),
            strength_instantaneous: fields.next(),
            modulus_permanent: fields.next(),
            modulus_transient: fields.next(),
            modulus_instantaneous: fields.next(),
        }
    }

    fn open(left: Option<&'a [u8]>) -> OpenFields<'a>
        ensures { open_fields result ≡ placed_first 7 2 (fields_left left.entry) }
    {
        let mut fields = Fields::behind(left);
        OpenFields {
            member: fields.next(),
            length: fields.next(),
            class: fields.next(),
            duration: fields.next(),
            axial: fields.next(),
            shear: fields.next(),
            moment: fields.next(),
        }
    }
}

// A line of the verb, with as many fields as it has.
fn line_of<'a>(verb: Verb, left: Option<&'a [u8]>) -> Line<'a>
    ensures { said result ≡ says verb (placed_first (count_of verb - 1) 2 (fields_left left.entry)) }
{
    match verb {
        Verb::Grade => Line::Grade(Fields::grade(left)),
        Verb::Class => Line::Class(Fields::class(left)),
        Verb::Culm => Line::Culm(Fields::culm(left)),
        Verb::Scrap => Line::Scrap(Fields::only(left)),
        Verb::Open => Line::Open(Fields::open(left)),
        Verb::Hold => Line::Hold(Fields::bundle(left)),
        Verb::Free => Line::Free(Fields::bundle(left)),
        Verb::Judge => Line::Judge(Fields::only(left)),
        Verb::Set => Line::Set(Fields::only(left)),
        Verb::Drop => Line::Drop(Fields::only(left)),
        Verb::Strike => Line::Strike(Fields::only(left)),
        Verb::Load => Line::Load(Fields::load(left)),
        Verb::Without => Line::Without(Fields::bundle(left)),
        Verb::Tell => Line::Tell,
    }
}

/// The line that the bytes are, or why they are none: too long, no verb, or another count of fields than the verb has.
pub fn read(line: &[u8]) -> Result<Line<'_>, LineFault>
    ensures { seen result ≡ read_line line.now }
{
    if line.len() > LONGEST_LINE {
        return Err(LineFault::TooLong);
    }
    let (word, left) = cut(line);
    let verb = Verb::try_from(word)?;
    let found = 1 + behind_first(line) as u32;
    if found != verb.count() {
        return Err(LineFault::FieldCount { found });
    }
    Ok(line_of(verb, left))
}
