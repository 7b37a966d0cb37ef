//! Answers the lines of standard input on standard output: every line that a read ends before the next read.
//!
//! No contract can say what a program reads or writes. So `serve` itself has none: what a read is answered with is said by `take_in`,
//! and that nothing is kept of what was written by `write_out`.

#![tactic(auto)]

ghost use Rattle.std.specs.Prelude.{◌≡◌, ◌+◌, ◌<◌, ◌≤◌, [], ◌++◌, length, IfOk, vec_len, vec_capacity, OnErr, OnOk};
ghost use Rattle.line_service.specs.Manner.{run, answers};
ghost use Rattle.serving.specs.Reads.{read_lines};

use anyhow::{anyhow, bail};
use line_service::responder::Responder;
use line_service::service::LineService;
use std::alloc::AllocError;
use std::io::{ErrorKind, Read, Write};

// How many bytes are read at once.
const CHUNK: usize = 65536;

/// Has the responder answer all of standard input.
pub fn serve<R: Responder + Drop>(rt: &HostRuntime, responder: R) -> anyhow::Result<()> {
    let mut service = LineService::new(responder);
    let mut out = Vec::new(rt.alloc());
    // Nothing says that an input ends, so the reads are counted.
    for _ in 0..u64::MAX {
        if !serve_chunk(rt, &mut service, &mut out)? {
            return Ok(());
        }
    }
    bail!("too much input")
}

// Reads some input and answers the lines that it ends; the result is false at the end of the input.
fn serve_chunk<R: Responder>(
    rt: &HostRuntime,
    service: &mut LineService<R>,
    out: &mut Vec<u8>,
) -> anyhow::Result<bool>
    ensures forgets { OnOk result (out.new.items ≡ []) }
{
    // A buffer and a count, as a read takes and answers them.
    let mut chunk = [0; CHUNK];
    let count = read_chunk(rt, &mut chunk)?;
    let taken = take_in(service, &chunk[..count], out);
    // What was answered is written in any case.
    write_out(rt, out)?;
    taken.map_err(|_| anyhow!("out of memory"))?;
    Ok(count > 0)
}

// Takes in what was read, where no bytes are the end of the input.
fn take_in<R: Responder>(
    service: &mut LineService<R>,
    bytes: &[u8],
    out: &mut Vec<u8>,
) -> Result<(), AllocError>
    ensures after { OnOk result (R.Responder.state service.new.responder ≡
        run R.Responder.manner (R.Responder.state service.old.responder) (read_lines (service.old.front.items) bytes.now)) }
    ensures said { OnOk result (out.new.items ≡ out.old.items ++
        answers R.Responder.manner (R.Responder.state service.old.responder) (read_lines (service.old.front.items) bytes.now)) }
    ensures wanting { OnErr result (vec_capacity out.old < vec_len out.new + R.Responder.manner.room) }
{
    if bytes.is_empty() {
        service.finish(out)
    } else {
        Ok(service.feed(bytes, out)?)
    }
}

// Reads what is there, at most as much as the chunk holds, and waits where nothing is there yet; 0 bytes are the end of the input.
fn read_chunk(rt: &HostRuntime, chunk: &mut [u8]) -> anyhow::Result<usize>
    ensures bound { IfOk result (λ n. n ≤ length chunk.new) }
{
    // Nothing says that signals end, so they are counted.
    for _ in 0..u64::MAX {
        match rt.stdin().read(chunk) {
            // A signal may come in between.
            Err(error) if error.kind() == ErrorKind::Interrupted => {}
            read => return Ok(read?),
        }
    }
    bail!("too many signals")
}

// Writes the bytes, and forgets them.
fn write_out(rt: &HostRuntime, out: &mut Vec<u8>) -> anyhow::Result<()>
    ensures forgets { OnOk result (out.new.items ≡ []) }
{
    let mut stdout = rt.stdout();
    stdout.write_all(out.as_slice())?;
    stdout.flush()?;
    out.clear();
    Ok(())
}

#[cfg(test)]
mod tests;
