ghost use Rattle.std.specs.Prelude.{◌≡◌};
ghost use Rattle.ledger.specs.Ledger.{on_rack, is_held, is_standing, stands_in};

use quantities::grade::Grade;
use quantities::readings::Readings;

// Where a culm is: on the rack, held by a ticket, or standing in a member.
#[derive(Clone, Copy, PartialEq, Eq, Debug)]
pub enum Place {
    Rack,
    Held { member: u32 },
    Standing { member: u32 },
}

// A culm, with the number of its grade and what that grade was defined as.
#[derive(Clone, Copy)]
pub struct Culm {
    pub number: u32,
    pub grade: u32,
    pub strengths: Grade,
    pub readings: Readings,
    pub place: Place,
}

impl Culm {
    pub fn is_on_rack(&self) -> bool
        ensures { result ≡ on_rack self.now }
    {
        matches!(self.place, Place::Rack)
    }

    pub fn is_held(&self) -> bool
        ensures { result ≡ is_held self.now }
    {
        matches!(self.place, Place::Held { .. })
    }

    pub fn is_standing(&self) -> bool
        ensures { result ≡ is_standing self.now }
    {
        matches!(self.place, Place::Standing { .. })
    }

    // Whether the culm stands in this member.
    pub fn stands_in(&self, member: u32) -> bool
        ensures { result ≡ stands_in member self.now }
    {
        matches!(self.place, Place::Standing { member: of } if of == member)
    }
}
