ghost use Rattle.std.specs.Prelude.{◌≡◌, ◌+◌, ◌≤◌, ◌∷◌, ◌++◌, length, decimal};
ghost use Rattle.arrayvec.specs.ArrayVec.{array_vec_len};
ghost use Rattle.line_reply.specs.Replies.{reply_line, done_line, counts_line, refusal_line};

use crate::reply::Reply;
use arrayvec::ArrayVec;
use itoa::Buffer;
use ledger::answer::Counts;
use line_format::fault::LineFault;
use line_format::verb::Verb;

/// The most bytes that the line of a reply has, byte 10 included: five counts of twenty digits each.
pub const LONGEST_LINE: usize = 113;

/// The bytes of a reply.
pub type Line = ArrayVec<u8, LONGEST_LINE>;

/// The reply's line, byte 10 included.
pub fn line_of(reply: Result<Reply, LineFault>) -> Line
    ensures { result.items ≡ reply_line reply }
{
    match reply {
        Ok(Reply::Done(verb)) => done_line(verb),
        Ok(Reply::Counted(counts)) => counts_line(counts),
        Err(fault) => refusal_line(fault.number(), fault.place()),
    }
}

fn done_line(verb: Verb) -> Line
    ensures { result.items ≡ done_line verb }
{
    let mut line = Line::new();
    put_text(&mut line, b"OK\t");
    put_text(&mut line, verb.word());
    line.push(b'\n');
    line
}

fn counts_line(counts: Counts) -> Line
    ensures { result.items ≡ counts_line counts }
{
    let mut line = Line::new();
    put_text(&mut line, b"OK\tTELL");
    put_number(&mut line, counts.rack);
    put_number(&mut line, counts.held);
    put_number(&mut line, counts.standing);
    put_number(&mut line, counts.members);
    put_number(&mut line, counts.tickets);
    line.push(b'\n');
    line
}

fn refusal_line(number: u16, place: u32) -> Line
    ensures { result.items ≡ refusal_line number place }
{
    let mut line = Line::new();
    put_text(&mut line, b"NO");
    put_number(&mut line, usize::from(number));
    put_number(&mut line, place as usize);
    line.push(b'\n');
    line
}

// Appends bytes that fit. No `write!`: into fixed memory it does not say when it succeeds.
fn put_text(line: &mut Line, text: &[u8])
    requires { array_vec_len line.old + length text.now ≤ 113 }
    ensures { line.new.items ≡ line.old.items ++ text.now }
{
    line.try_extend_from_slice(text).unwrap();
}

// Appends a tab and a number, which has at most twenty digits.
fn put_number(line: &mut Line, n: usize)
    requires { array_vec_len line.old + 21 ≤ 113 }
    ensures items { line.new.items ≡ line.old.items ++ (9 ∷ decimal n) }
    ensures len { array_vec_len line.new ≤ array_vec_len line.old + 21 }
{
    line.push(b'\t');
    put_text(line, Buffer::new().format(n).as_bytes());
}
