ghost use Rattle.std.specs.Prelude.{◌≡◌, if◌then◌else◌};
ghost use Rattle.design_code.specs.Verdicts.{all_met, refused_by};

// A code's answer on a bundle: met, or refused.
pub type Verdict = Result<(), Refused>;

// The number of the first clause that a code does not accept. Any code numbers clauses of its own.
#[derive(Clone, Copy, PartialEq, Eq, Debug)]
pub struct Refused {
    pub clause: u32,
}

impl Refused {
    // The verdict of one clause.
    pub fn unless(accepts: bool, clause: u32) -> Verdict
        ensures { result ≡ (if accepts then all_met else refused_by clause) }
    {
        if accepts {
            Ok(())
        } else {
            Err(Refused { clause })
        }
    }
}
