//! A line service takes bytes in, and has its responder answer each line as soon as it is ended.
ghost use Rattle.std.specs.Prelude.{◌≡◌, ◌≤◌, length, alloc_error};

use crate::LINE_LIMIT;
use arrayvec::ArrayVec;
use std::alloc::AllocError;

pub mod feeding;

// How many bytes of a line are kept: one more than it may have, enough to tell a line that is too long.
const KEPT: usize = LINE_LIMIT + 1;

/// A responder, and the front of the line that is not ended yet.
#[derive(Drop)]
pub struct LineService<R> {
    responder: R,
    front: ArrayVec<u8, KEPT>,
    ghost short: { length front.items ≤ 81 },
}

/// Memory was wanting. The first `taken` bytes of the chunk were taken in, and the rest may be fed again.
#[derive(Clone, Copy, Debug, PartialEq, Eq)]
pub struct Stopped {
    pub taken: usize,
}

impl From<Stopped> for AllocError {
    ghost from_gives = { λ _ error. error ≡ alloc_error };

    fn from(_: Stopped) -> AllocError {
        AllocError
    }
}
