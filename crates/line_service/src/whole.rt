//! A whole input, however it is cut.
ghost use Rattle.std.specs.Prelude.{ℕ, ◌+◌, ◌<◌, ◌≤◌, List, vec_len, vec_capacity, OnErr};
ghost use Rattle.line_service.specs.Lines.{Cut};
ghost use Rattle.line_service.specs.Whole.{glued, Answered};

use crate::responder::Responder;
use crate::service::LineService;
use std::alloc::AllocError;

/// Has the responder answer an input that comes in chunks. However the input is cut, the answers are those to the lines of the whole.
pub fn respond_all<R: Responder + Drop>(
    responder: R,
    chunks: &[&[u8]],
    out: &mut Vec<u8>,
) -> Result<(), AllocError>
    ensures answered { Answered R.Responder.manner (R.Responder.state responder) (glued chunks.now) out.old.items out.new.items result }
    ensures capacity { vec_capacity out.old ≤ vec_capacity out.new }
    ensures wanting { OnErr result (vec_capacity out.old < vec_len out.new + R.Responder.manner.room) }
{
    let mut service = LineService::new(responder);
    for chunk in chunks {
        service.feed(chunk, out)?;
    }
    service.finish(out)
}

/// Computes nothing: its contract says what the lines of every input are.
pub fn lines_obey_their_law()
    ensures cut { (input : List ℕ) → Cut input }
{}
