ghost use Rattle.std.specs.Prelude.{List};
ghost use Rattle.ledger.specs.Ledger.{Ledger};
ghost use Rattle.ledger.specs.Runs.{run, answers, Whole};
ghost use Rattle.ledger.specs.declared.call.Call.{Call};

use design_code::code::DesignCode;

// Computes nothing: what is true of every run of calls under any sound code, from the ledger alone.
pub fn runs_keep_their_promises<C: DesignCode>(code: &C)
    ensures { (before : Ledger) (calls : List Call) → Whole (C.DesignCode.meaning code.now) before (run (C.DesignCode.meaning code.now).rule before calls) calls (answers (C.DesignCode.meaning code.now).rule before calls) }
{}
