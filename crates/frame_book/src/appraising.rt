ghost use Rattle.std.specs.Prelude.{◌≡◌, [], ◌∷◌};
ghost use Rattle.ledger.specs.Table.{first_of, check, absent, strength};
ghost use Rattle.ledger.specs.declared.fault.BookFault.TheVariants.{NoCulm};
ghost use Rattle.stock.specs.Rows.{as_question};

use design_code::appraisal::appraise;
use design_code::code::DesignCode;
use ledger::fault::BookFault;
use ledger::member::Member;
use quantities::bundle::Bundle;

// Refused where there is no culm, and where the code answers a number on the bundle under the member's forces.
pub fn ask_some<C: DesignCode>(
    code: &C,
    bundle: Option<Bundle>,
    member: &Member,
) -> Result<(), BookFault>
    ensures { result ≡ first_of (check NoCulm (absent (as_question bundle member.now)) ∷ strength (C.DesignCode.meaning code.now).rule (as_question bundle member.now) ∷ []) }
{
    let bundle = bundle.ok_or(BookFault::NoCulm)?;
    appraise(code, &bundle, member.forces)?;
    Ok(())
}

// The same, but not refused where there is no culm. Two questions and no flag: the table of refusals has them as two.
pub fn ask_any<C: DesignCode>(
    code: &C,
    bundle: Option<Bundle>,
    member: &Member,
) -> Result<(), BookFault>
    ensures { result ≡ first_of (strength (C.DesignCode.meaning code.now).rule (as_question bundle member.now) ∷ []) }
{
    if let Some(found) = bundle {
        appraise(code, &found, member.forces)?;
    }
    Ok(())
}
