// Whole runs of calls on a book.

#![tactic(auto)]

ghost use Rattle.std.specs.Prelude.{◌≡◌, MatchResult};
ghost use Rattle.ledger.specs.Runs.{Whole};
ghost use Rattle.frame_book.specs.Books.{ledger_of, Past};

use design_code::code::DesignCode;
use frame_book::book::Book;
use ledger::answer::Answer;
use ledger::call::Call;
use ledger::fault::BookFault;
use std::alloc::{AllocError, Global};

pub mod day;

// Plays the calls and gives their answers in order; where memory is short it plays none.
pub fn play<C: DesignCode>(
    alloc: Global,
    code: &C,
    book: &mut Book,
    calls: &[Call],
) -> Result<Vec<Result<Answer, BookFault>>, AllocError>
    ensures run { MatchResult result
        (λ v. Whole (C.DesignCode.meaning code.now) (ledger_of book.old) (ledger_of book.new) calls.now v.items)
        (λ _. book.new ≡ book.old) }
    ensures past { Past book.old book.new }
{
    let mut answers = Vec::with_capacity(alloc, calls.len())?;
    for call in calls {
        answers.push(book.obey(code, *call))?;
    }
    Ok(answers)
}
