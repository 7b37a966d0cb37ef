ghost use Rattle.std.specs.Prelude.{◌≡◌, ◌-◌, ◌≤◌, [], ◌∷◌, Some, None, OnErr, slice_index_or, slice_set};
ghost use Rattle.std.specs.Option.{ok_or};
ghost use Rattle.design_code.specs.Meaning.{Rule};
ghost use Rattle.ledger.specs.Table.{next, refusal, first_of, afterwards, check, present};
ghost use Rattle.ledger.specs.declared.call.Call.TheVariants.{DefineGrade, DefineClass};
ghost use Rattle.ledger.specs.declared.fault.BookFault.TheVariants.{AlreadyDefined, NotDefined};
ghost use Rattle.frame_book.specs.Books.{ledger_of, Past};

use crate::book::Book;
use ledger::fault::BookFault;
use quantities::class::{RawClass, ServiceClass};
use quantities::grade::{Grade, RawGrade};
use quantities::numbers::{ClassNumber, GradeNumber};

// States what has this number, where it was not stated yet.
fn define<T: Copy, const N: usize>(
    stated: &mut [Option<T>; N],
    number: u32,
    value: T,
) -> Result<(), BookFault>
    requires low { 1 ≤ number }
    requires high { number ≤ N }
    ensures said { result ≡ first_of (check AlreadyDefined (present (slice_index_or stated.old (number - 1) None)) ∷ []) }
    ensures after { stated.new ≡ afterwards (check AlreadyDefined (present (slice_index_or stated.old (number - 1) None)) ∷ []) stated.old (slice_set stated.old (number - 1) (Some value)) }
    ensures refused { OnErr result (stated.new ≡ stated.old) }
{
    let place = (number - 1) as usize;
    if stated[place].is_some() {
        return Err(BookFault::AlreadyDefined);
    }
    stated[place] = Some(value);
    Ok(())
}

// What was stated under this number.
pub(super) fn stated<T: Copy, const N: usize>(
    stated: &[Option<T>; N],
    number: u32,
) -> Result<T, BookFault>
    requires low { 1 ≤ number }
    requires high { number ≤ N }
    ensures { result ≡ ok_or (slice_index_or stated.now (number - 1) None) NotDefined }
{
    stated[(number - 1) as usize].ok_or(BookFault::NotDefined)
}

impl<'a> Book<'a> {
    // States a grade, which is never changed.
    pub fn define_grade(&mut self, grade: u32, values: RawGrade) -> Result<(), BookFault>
        ensures said { (rule : Rule) → result ≡ refusal rule (ledger_of self.old) (DefineGrade grade values) }
        ensures after { (rule : Rule) → ledger_of self.new ≡ next rule (ledger_of self.old) (DefineGrade grade values) }
        ensures past { Past self.old self.new }
        ensures refused { OnErr result (self.new ≡ self.old) }
    {
        let number = GradeNumber::in_field(2, grade)?;
        let strengths = Grade::measured(3, values)?;
        define(&mut self.grades, number.value, strengths)
    }

    // States a service class, which is never changed.
    pub fn define_class(&mut self, class: u32, factors: RawClass) -> Result<(), BookFault>
        ensures said { (rule : Rule) → result ≡ refusal rule (ledger_of self.old) (DefineClass class factors) }
        ensures after { (rule : Rule) → ledger_of self.new ≡ next rule (ledger_of self.old) (DefineClass class factors) }
        ensures past { Past self.old self.new }
        ensures refused { OnErr result (self.new ≡ self.old) }
    {
        let number = ClassNumber::in_field(2, class)?;
        let factors = ServiceClass::measured(3, factors)?;
        define(&mut self.classes, number.value, factors)
    }
}
