ghost use Rattle.std.specs.Prelude.{◌≡◌, ◌+◌, ◌<◌, ◌≤◌, ◌++◌, length, is_ok, if◌then◌else◌, vec_len, vec_capacity, OnErr};
ghost use Rattle.line_reply.specs.Replies.{reply_line};

use crate::line::line_of;
use ledger::answer::Counts;
use line_format::fault::LineFault;
use line_format::verb::Verb;
use std::alloc::AllocError;

/// The answer to a line that was not refused.
#[derive(Clone, Copy, Debug, PartialEq, Eq)]
pub enum Reply {
    Done(Verb),
    Counted(Counts),
}

/// Appends the line of the reply, or of the refusal, or nothing where there is no memory for it.
pub fn append(out: &mut Vec<u8>, reply: Result<Reply, LineFault>) -> Result<(), AllocError>
    ensures said { out.new.items ≡ (if is_ok result then out.old.items ++ reply_line reply else out.old.items) }
    ensures capacity { vec_capacity out.old ≤ vec_capacity out.new }
    ensures wanting { OnErr result (vec_capacity out.old < vec_len out.old + length (reply_line reply)) }
{
    out.extend_from_slice(line_of(reply).as_slice())
}
