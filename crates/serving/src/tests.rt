ghost use Rattle.std.specs.Prelude.{◌++◌, [], ◌∷◌, codes};
ghost use Rattle.line_service.specs.Manner.{refusing};

use crate::take_in;
use line_service::LINE_LIMIT;
use line_service::responder::Responder;
use line_service::service::LineService;
use std::alloc::AllocError;
use std::test::Fail;

// Says each line again, and a question mark for a line that is too long.
#[derive(Drop)]
struct Echo;

impl Responder for Echo {
    ghost manner = { refusing (codes "?") 81 (Unit {0}) (λ s _. s) (λ _ line. line ++ (10 ∷ [])) };

    ghost state = { λ _. tt };

    fn answer(&mut self, line: &[u8], out: &mut Vec<u8>) -> Result<(), AllocError> {
        if line.len() > LINE_LIMIT {
            return out.extend_from_slice(b"?");
        }
        out.reserve(line.len() + 1)?;
        out.extend_from_slice(line)?;
        out.push(b'\n')?;
        Ok(())
    }
}

#[test]
fn takes_reads_in(rt: HostRuntime) -> Result<(), Fail> {
    let mut service = LineService::new(Echo);
    let mut out = Vec::new(rt.alloc());
    take_in(&mut service, b"HOLD\nFR", &mut out)?;
    assert_eq!(rt; out.as_slice(), b"HOLD\n".as_slice());
    take_in(&mut service, b"EE", &mut out)?;
    assert_eq!(rt; out.as_slice(), b"HOLD\n".as_slice());
    take_in(&mut service, b"", &mut out)?;
    assert_eq!(rt; out.as_slice(), b"HOLD\nFREE\n".as_slice());
    Ok(())
}
