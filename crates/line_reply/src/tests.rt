use crate::reply::{Reply, append};
use ledger::answer::Counts;
use line_format::fault::LineFault;
use line_format::verb::Verb;
use std::test::Fail;

#[test]
fn appends_lines(rt: HostRuntime) -> Result<(), Fail> {
    let mut out = Vec::new(rt.alloc());
    append(&mut out, Ok(Reply::Done(Verb::Hold)))?;
    let counts = Counts {
        rack: 0,
        held: 1,
        standing: 0,
        members: 0,
        tickets: 1,
    };
    append(&mut out, Ok(Reply::Counted(counts)))?;
    append(&mut out, Err(LineFault::UnknownVerb))?;
    append(&mut out, Err(LineFault::FieldCount { found: 2 }))?;
    append(&mut out, Err(LineFault::BadField { place: 5 }))?;
    let lines = b"OK\tHOLD\nOK\tTELL\t0\t1\t0\t0\t1\nNO\t2\t0\nNO\t3\t2\nNO\t4\t5\n";
    assert_eq!(rt; out.as_slice(), lines.as_slice());
    Ok(())
}
