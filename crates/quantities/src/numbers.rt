use crate::within::Within;

pub type GradeNumber = Within<1, 8>;

pub type ClassNumber = Within<1, 3>;

pub type CulmNumber = Within<1, 4096>;

pub type MemberNumber = Within<1, 9999>;

// A whole percent.
pub type Percent = Within<10, 100>;

// An effective length in millimetres, with the end factor already in it.
pub type EffectiveLength = Within<500, 8000>;
