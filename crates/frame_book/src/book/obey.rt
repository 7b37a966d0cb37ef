ghost use Rattle.std.specs.Prelude.{◌≡◌, OnErr};
ghost use Rattle.ledger.specs.Table.{told, next};
ghost use Rattle.ledger.specs.declared.answer.Answer.TheVariants.{Done};
ghost use Rattle.frame_book.specs.Books.{ledger_of, Past};

use crate::book::Book;
use design_code::code::DesignCode;
use ledger::answer::Answer;
use ledger::call::Call;
use ledger::fault::BookFault;

// The answer to a call that tells nothing.
fn done(_: ()) -> Answer
    ensures { result ≡ Done }
{
    Answer::Done
}

impl<'a> Book<'a> {
    // One call by plain numbers.
    pub fn obey<C: DesignCode>(&mut self, code: &C, call: Call) -> Result<Answer, BookFault>
        ensures said { result ≡ told (C.DesignCode.meaning code.now).rule (ledger_of self.old) call }
        ensures after { ledger_of self.new ≡ next (C.DesignCode.meaning code.now).rule (ledger_of self.old) call }
        ensures past { Past self.old self.new }
        ensures refused { OnErr result (self.new ≡ self.old) }
    {
        match call {
            Call::DefineGrade { grade, values } => self.define_grade(grade, values).map(done),
            Call::DefineClass { class, factors } => self.define_class(class, factors).map(done),
            Call::AddCulm {
                culm,
                grade,
                readings,
            } => self.add_culm(culm, grade, readings).map(done),
            Call::ScrapCulm { culm } => self.scrap_culm(culm).map(done),
            Call::Open(opening) => self.enter_ticket(opening).map(done),
            Call::CheckOut { member } => self.check_out_by(member).map(done),
            Call::CheckIn { member } => self.check_in_by(member).map(done),
            Call::Hold { member, culm } => self.hold_by(member, culm).map(done),
            Call::Free { member, culm } => self.free_by(member, culm).map(done),
            Call::Judge { member } => self.judge_by(code, member).map(done),
            Call::Set { member } => self.set_by(member).map(done),
            Call::DropTicket { member } => self.drop_by(member).map(done),
            Call::Strike { member } => self.strike(member).map(done),
            Call::Load {
                member,
                duration,
                forces,
            } => self.load(code, member, duration, forces).map(done),
            Call::JudgeWithout { member, culm } => {
                self.judge_without(code, member, culm).map(done)
            }
            Call::LookCulm { culm } => self.culm(culm).map(Answer::OneCulm),
            Call::LookMember { member } => self.member(member).map(Answer::OneMember),
            Call::LookCounts => Ok(Answer::AllCounts(self.counts())),
        }
    }
}
