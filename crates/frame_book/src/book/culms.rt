ghost use Rattle.std.specs.Prelude.{◌≡◌, OnErr};
ghost use Rattle.design_code.specs.Meaning.{Rule};
ghost use Rattle.ledger.specs.Orders.Order.{add_culm};
ghost use Rattle.ledger.specs.Table.{next, refusal, order_refusal, after_order};
ghost use Rattle.ledger.specs.declared.call.Call.TheVariants.{AddCulm, ScrapCulm};
ghost use Rattle.frame_book.specs.Books.{ledger_of, Past};

use crate::book::Book;
use crate::book::define::stated;
use ledger::fault::BookFault;
use quantities::numbers::{CulmNumber, GradeNumber};
use quantities::readings::{RawReadings, Readings};

impl<'a> Book<'a> {
    // Puts a new culm on the rack.
    pub fn add_culm(
        &mut self,
        culm: u32,
        grade: u32,
        readings: RawReadings,
    ) -> Result<(), BookFault>
        ensures said { (rule : Rule) → result ≡ refusal rule (ledger_of self.old) (AddCulm culm grade readings) }
        ensures after { (rule : Rule) → ledger_of self.new ≡ next rule (ledger_of self.old) (AddCulm culm grade readings) }
        ensures past { Past self.old self.new }
        ensures refused { OnErr result (self.new ≡ self.old) }
    {
        CulmNumber::in_field(2, culm)?;
        let grade = GradeNumber::in_field(3, grade)?;
        let readings = Readings::measured(4, readings)?;
        self.add_measured(culm, grade, readings)
    }

    // Puts a new culm of a grade on the rack.
    fn add_measured(
        &mut self,
        culm: u32,
        grade: GradeNumber,
        readings: Readings,
    ) -> Result<(), BookFault>
        ensures said { (rule : Rule) → result ≡ order_refusal rule (ledger_of self.old) (add_culm culm grade.value readings) }
        ensures after { (rule : Rule) → ledger_of self.new ≡ after_order rule (ledger_of self.old) (add_culm culm grade.value readings) }
        ensures past { Past self.old self.new }
        ensures refused { OnErr result (self.new ≡ self.old) }
    {
        let strengths = stated(&self.grades, grade.value)?;
        self.stock.add(culm, grade.value, strengths, readings)
    }

    // Takes a culm on the rack out of the book.
    pub fn scrap_culm(&mut self, culm: u32) -> Result<(), BookFault>
        ensures said { (rule : Rule) → result ≡ refusal rule (ledger_of self.old) (ScrapCulm culm) }
        ensures after { (rule : Rule) → ledger_of self.new ≡ next rule (ledger_of self.old) (ScrapCulm culm) }
        ensures past { Past self.old self.new }
        ensures refused { OnErr result (self.new ≡ self.old) }
    {
        CulmNumber::in_field(2, culm)?;
        self.stock.scrap(culm)
    }
}
