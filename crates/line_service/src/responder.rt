ghost use Rattle.std.specs.Prelude.{◌≡◌, ◌+◌, ◌<◌, ◌≤◌, ◌++◌, is_ok, if◌then◌else◌, vec_len, vec_capacity, OnErr};
ghost use Rattle.line_service.specs.Manner.{Manner};

use std::alloc::AllocError;

/// What answers lines one by one. A trait and no closure: its state and its manner stand in contracts. `capacity` and `wanting` are
/// clauses, since they speak of the bytes before and after.
pub trait Responder {
    // How it answers, by states of its own choice.
    ghost manner: { Manner };

    // The state that it is in.
    ghost state: { Self → manner.State };

    // Puts the answer behind what is on `out`. Where memory is wanting, it does nothing.
    fn answer(&mut self, line: &[u8], out: &mut Vec<u8>) -> Result<(), AllocError>
        ensures after { state self.new ≡ (if is_ok result then manner.next (state self.old) line.now else state self.old) }
        ensures said { out.new.items ≡ (if is_ok result then out.old.items ++ manner.said (state self.old) line.now else out.old.items) }
        ensures capacity { vec_capacity out.old ≤ vec_capacity out.new }
        ensures wanting { OnErr result (vec_capacity out.old < vec_len out.old + manner.room) };
}
