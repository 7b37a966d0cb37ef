ghost use Rattle.std.specs.Prelude.{min, length, MatchResult};
ghost use Rattle.season.specs.Days.{Day};

use crate::play;
use design_code::code::DesignCode;
use frame_book::book::Book;
use ledger::answer::Answer;
use ledger::call::Call;
use ledger::fault::BookFault;
use ledger::member::Member;
use std::alloc::{AllocError, Global};
use stock::row::CulmRow;

// Plays the calls on an empty book over the rows.
pub fn day<C: DesignCode>(
    alloc: Global,
    code: &C,
    culms: &mut [CulmRow],
    members: &mut [Member],
    calls: &[Call],
) -> Result<Vec<Result<Answer, BookFault>>, AllocError>
    ensures { MatchResult result
        (λ v. Day (C.DesignCode.meaning code.now) (min 4096 (length culms.old)) (min 512 (length members.old)) calls.now v.items)
        (λ _. Unit {0}) }
{
    let mut book = Book::new(culms, members);
    play(alloc, code, &mut book, calls)
}
