ghost use Rattle.quantities.specs.Bundles.{culms_of};
ghost use Rattle.shop_code.specs.Verdicts.{ShopVerdict};

use crate::bending::BendingCode;
use crate::compression::CompressionCode;
use crate::shear::ShearCode;
use crate::tension::TensionCode;
use design_code::appraisal::appraise;
use design_code::joined::Joined;
use design_code::verdict::Verdict;
use quantities::bundle::Bundle;
use quantities::forces::Forces;

// Clauses 1 to 4 joined in that order.
pub type ShopCode = Joined<Joined<Joined<BendingCode, ShearCode>, TensionCode>, CompressionCode>;

pub fn shop_code() -> ShopCode {
    Joined(
        Joined(Joined(BendingCode, ShearCode), TensionCode),
        CompressionCode,
    )
}

// The shop code's verdict on a bundle, with what it says of every clause.
pub fn shop_verdict(bundle: &Bundle, forces: Forces) -> Verdict
    ensures { ShopVerdict (culms_of bundle.now) bundle.now.basis forces result }
{
    appraise(&shop_code(), bundle, forces)
}
