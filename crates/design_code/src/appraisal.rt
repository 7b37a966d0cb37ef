ghost use Rattle.quantities.specs.Bundles.{culms_of};
ghost use Rattle.design_code.specs.Meaning.{Judged};

use crate::code::DesignCode;
use crate::verdict::Verdict;
use quantities::bundle::Bundle;
use quantities::forces::Forces;

// The verdict of any code on a bundle under forces, with what it is worth.
pub fn appraise<C: DesignCode>(code: &C, bundle: &Bundle, forces: Forces) -> Verdict
    ensures { Judged (C.DesignCode.meaning code.now) (culms_of bundle.now) bundle.now.basis forces result }
{
    let figures = code.figures(bundle);
    code.judge(&figures, forces)
}
