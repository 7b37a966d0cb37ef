ghost use Rattle.std.specs.Prelude.{ℕ, ◌++◌, [], ◌∷◌, List, codes};
ghost use Rattle.line_service.specs.Manner.{refusing};

use crate::LINE_LIMIT;
use crate::responder::Responder;
use crate::service::LineService;
use crate::whole::respond_all;
use std::alloc::AllocError;
use std::test::Fail;

// Says each line again, and a question mark for a line that is too long.
#[derive(Drop)]
struct Echo;

impl Responder for Echo {
    ghost manner = { refusing (codes "?") 81 (Unit {0}) (λ s _. s) (λ _ line. line ++ (10 ∷ [])) };

    ghost state = { λ _. tt };

    fn answer(&mut self, line: &[u8], out: &mut Vec<u8>) -> Result<(), AllocError> {
        if line.len() > LINE_LIMIT {
            return out.extend_from_slice(b"?");
        }
        out.reserve(line.len() + 1)?;
        out.extend_from_slice(line)?;
        out.push(b'\n')?;
        Ok(())
    }
}

#[test]
fn answers_however_cut(rt: HostRuntime) -> Result<(), Fail> {
    let cuts: [&[&[u8]]; 4] = [
        &[b"HOLD\n\nFREE"],
        &[b"HOLD\n", b"\nFREE"],
        &[b"HO", b"LD", b"\n\nF", b"", b"REE"],
        &[b"HOLD\n\nFREE", b"\n"],
    ];
    for chunks in cuts {
        let mut out = Vec::new(rt.alloc());
        respond_all(Echo, chunks, &mut out)?;
        assert_eq!(rt; out.as_slice(), b"HOLD\n\nFREE\n".as_slice());
    }
    Ok(())
}

#[test]
fn tells_a_line_that_is_too_long(rt: HostRuntime) -> Result<(), Fail> {
    let alloc = rt.alloc();
    for (length, answer) in [(LINE_LIMIT, LINE_LIMIT + 1), (LINE_LIMIT + 1, 1)] {
        let mut service = LineService::new(Echo);
        let mut out = Vec::new(alloc);
        for _ in 0..length {
            service.feed(b"x", &mut out)?;
        }
        assert!(rt; out.is_empty());
        service.finish(&mut out)?;
        assert_eq!(rt; out.len(), answer, "at {length}");
    }
    Ok(())
}
