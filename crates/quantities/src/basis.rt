use crate::class::ServiceClass;
use crate::duration::Duration;
use crate::grade::Grade;
use crate::numbers::EffectiveLength;

// What a bundle is designed on, besides its culms.
#[derive(Clone, Copy)]
pub struct DesignBasis {
    pub grade: Grade,
    pub class: ServiceClass,
    pub duration: Duration,
    pub length: EffectiveLength,
}
