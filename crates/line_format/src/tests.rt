use crate::request::parse;
use crate::verb::Verb;
use std::test::Fail;

#[test]
fn refuses_by_number_and_place(rt: HostRuntime) -> Result<(), Fail> {
    let refusals: [(&[u8], u16, u32); 8] = [
        (b"", 2, 0),
        (b"tell", 2, 0),
        (b"TELL\t1", 3, 2),
        (b"CULM\t0\t1\t1000\t0x\t100", 4, 5),
        (b"HOLD\t7\t007", 4, 3),
        (b"LOAD\t7\tX\t0\t0\t0", 4, 3),
        (b"LOAD\t7\tI\t0\t-5\t0", 4, 5),
        (
            b"JUDGE\t000000000000000000000000000000000000000000000000000000000000000000000000000",
            1,
            0,
        ),
    ];
    for (line, number, place) in refusals {
        match parse(line) {
            Ok(_) => assert!(rt; false, "not refused: {number} {place}"),
            Err(fault) => assert_eq!(rt; (fault.number(), fault.place()), (number, place)),
        }
    }
    Ok(())
}

#[test]
fn reads_the_verb(rt: HostRuntime) -> Result<(), Fail> {
    let lines: [(&[u8], Verb); 4] = [
        (b"CULM\t0\t1\t1000\t100\t100", Verb::Culm),
        (b"OPEN\t7\t2000\t2\tI\t-20000\t0\t645", Verb::Open),
        (b"HOLD\t7\t4", Verb::Hold),
        (b"TELL", Verb::Tell),
    ];
    for (line, verb) in lines {
        match parse(line) {
            Ok(request) => assert_eq!(rt; request.verb, verb),
            Err(fault) => assert!(rt; false, "refused by {}", fault.number()),
        }
    }
    Ok(())
}
