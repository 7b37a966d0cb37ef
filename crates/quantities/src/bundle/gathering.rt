ghost use Rattle.std.specs.Prelude.{◌≡◌, ◌<◌, ◌≤◌, [], ◌∷◌, ◌++◌, length, if◌then◌else◌, Ok, Err, nat_lt};
ghost use Rattle.quantities.specs.Bundles.{culms_of};

use crate::basis::DesignBasis;
use crate::bundle::{Bundle, MOST_CULMS};
use crate::readings::Readings;

// Why a culm cannot be added to a bundle.
#[derive(Clone, Copy, PartialEq, Eq, Debug)]
pub enum BundleFault {
    Full,
}

impl Bundle {
    // A bundle of one culm.
    pub fn of(culm: Readings, basis: DesignBasis) -> Bundle
        ensures culms { culms_of result ≡ culm ∷ [] }
        ensures basis { result.basis ≡ basis }
    {
        Bundle {
            rows: [culm; MOST_CULMS],
            count: 1,
            basis,
        }
    }

    // One culm more at the end, where there is room.
    pub fn add(&mut self, culm: Readings) -> Result<(), BundleFault>
        ensures said { result ≡ (if nat_lt (length (culms_of self.old)) 16 then Ok tt else Err BundleFault.Full) }
        ensures culms { culms_of self.new ≡ (if nat_lt (length (culms_of self.old)) 16 then culms_of self.old ++ (culm ∷ []) else culms_of self.old) }
        ensures basis { self.new.basis ≡ self.old.basis }
    {
        let at = self.count;
        if at >= MOST_CULMS {
            return Err(BundleFault::Full);
        }
        self.rows[at] = culm;
        self.count = at + 1;
        Ok(())
    }

    // The culms, in the order in which they were added.
    pub fn culms(&self) -> &[Readings]
        ensures { result.now ≡ culms_of self.now }
    {
        &self.rows[0..self.count]
    }
}
