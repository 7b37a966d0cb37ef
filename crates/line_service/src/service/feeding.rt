ghost use Rattle.std.specs.Prelude.{◌≡◌, ℕ, ◌+◌, ◌<◌, ◌≤◌, [], ◌++◌, length, is_ok, IfErr, if◌then◌else◌, vec_len, vec_capacity, OnErr, ◌≢◌, slice_index};
ghost use Rattle.line_service.specs.Feeding.{count, part, Took, Joins, Ends};
ghost use Rattle.line_service.specs.Front.{front_of};
ghost use Rattle.line_service.specs.Lines.{last_line, line_end};
ghost use Rattle.line_service.specs.Manner.{answers, run};

use super::{LineService, Stopped};
use crate::responder::Responder;
use arrayvec::ArrayVec;
use std::alloc::AllocError;

// The byte that ends a line.
const LINE_END: u8 = b'\n';

impl<R: Responder> LineService<R> {
    /// A service that was fed nothing yet.
    pub fn new(responder: R) -> LineService<R>
        ensures state { R.Responder.state result.responder ≡ R.Responder.state responder }
        ensures front { result.front.items ≡ [] }
    {
        LineService {
            responder,
            front: ArrayVec::new(),
        }
    }

    /// Takes a chunk in: each line that it ends is answered behind what is on `out`. Where memory is wanting it stops, before the byte 10
    /// of the line that it could not answer.
    pub fn feed(&mut self, chunk: &[u8], out: &mut Vec<u8>) -> Result<(), Stopped>
        ensures bound { count result chunk.now ≤ length chunk.now }
        ensures took { Took R.Responder.manner (R.Responder.state self.old.responder) self.old.front.items (part result chunk.now)
            (R.Responder.state self.new.responder) self.new.front.items out.old.items out.new.items }
        ensures joins { Joins R.Responder.manner (R.Responder.state self.old.responder) self.old.front.items (part result chunk.now)
            (R.Responder.state self.new.responder) self.new.front.items }
        ensures stops { IfErr result (λ stopped. slice_index chunk.now stopped.taken ≡ line_end) }
        ensures capacity { vec_capacity out.old ≤ vec_capacity out.new }
        ensures wanting { OnErr result (vec_capacity out.old < vec_len out.new + R.Responder.manner.room) }
    {
        let mut rest = chunk;
        while let Some(end) = rest.iter().position(|byte| *byte == LINE_END) {
            self.keep(&rest[..end]);
            let taken = chunk.len() - rest.len() + end;
            self.end_line(out).map_err(|_| Stopped { taken })?;
            rest = &rest[end + 1..];
        }
        self.keep(rest);
        Ok(())
    }

    /// The end of the input: the last line is answered, if bytes stand after the last byte 10. Where memory is wanting, nothing is done.
    pub fn finish(&mut self, out: &mut Vec<u8>) -> Result<(), AllocError>
        ensures after { R.Responder.state self.new.responder ≡
            (if is_ok result then run R.Responder.manner (R.Responder.state self.old.responder) (last_line self.old.front.items) else R.Responder.state self.old.responder) }
        ensures front { self.new.front.items ≡ (if is_ok result then [] else self.old.front.items) }
        ensures said { out.new.items ≡ out.old.items ++
            (if is_ok result then answers R.Responder.manner (R.Responder.state self.old.responder) (last_line self.old.front.items) else []) }
        ensures ends { Ends R.Responder.manner (R.Responder.state self.old.responder) self.old.front.items }
        ensures capacity { vec_capacity out.old ≤ vec_capacity out.new }
        ensures wanting { OnErr result (vec_capacity out.old < vec_len out.new + R.Responder.manner.room) }
    {
        if !self.front.is_empty() {
            self.end_line(out)?;
        }
        Ok(())
    }

    // Has the responder answer the line by its front, and forgets the line. Where memory is wanting, nothing is done.
    fn end_line(&mut self, out: &mut Vec<u8>) -> Result<(), AllocError>
        ensures after { R.Responder.state self.new.responder ≡
            (if is_ok result then R.Responder.manner.next (R.Responder.state self.old.responder) self.old.front.items else R.Responder.state self.old.responder) }
        ensures front { self.new.front.items ≡ (if is_ok result then [] else self.old.front.items) }
        ensures said { out.new.items ≡
            (if is_ok result then out.old.items ++ R.Responder.manner.said (R.Responder.state self.old.responder) self.old.front.items else out.old.items) }
        ensures capacity { vec_capacity out.old ≤ vec_capacity out.new }
        ensures wanting { OnErr result (vec_capacity out.old < vec_len out.new + R.Responder.manner.room) }
    {
        self.responder.answer(self.front.as_slice(), out)?;
        self.front.clear();
        Ok(())
    }

    // Keeps more bytes of the line, as many as there is room for.
    fn keep(&mut self, more: &[u8])
        ensures responder { self.new.responder ≡ self.old.responder }
        ensures front { self.new.front.items ≡ front_of (self.old.front.items ++ more.now) }
    {
        let fitting = more.len().min(self.front.remaining_capacity());
        self.front.try_extend_from_slice(&more[..fitting]).unwrap();
    }
}
