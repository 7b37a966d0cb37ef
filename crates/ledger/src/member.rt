ghost use Rattle.std.specs.Prelude.{◌≡◌};
ghost use Rattle.ledger.specs.Ledger.{is_ticket, stands, is_in_hand, out_of_hand, is_judged};

use keyed_table::Numbered;
use quantities::class::ServiceClass;
use quantities::duration::Duration;
use quantities::forces::Forces;
use quantities::numbers::EffectiveLength;

// A member is on a ticket until it is set. Judged or not and in hand or not are two answers of their own: two flags say it plainly.
#[derive(Clone, Copy, PartialEq, Eq, Debug)]
pub enum Stage {
    Ticket { judged: bool, in_hand: bool },
    Standing,
}

// A member, with the number of its service class and what that class was defined as.
#[derive(Clone, Copy)]
pub struct Member {
    pub number: u32,
    pub length: EffectiveLength,
    pub class: u32,
    pub factors: ServiceClass,
    pub duration: Duration,
    pub forces: Forces,
    pub stage: Stage,
}

impl Numbered for Member {
    ghost key = { λ m. m.number };

    fn number(&self) -> u32 {
        self.number
    }
}

impl Member {
    pub fn is_ticket(&self) -> bool
        ensures { result ≡ is_ticket self.now }
    {
        matches!(self.stage, Stage::Ticket { .. })
    }

    // A ticket in hand.
    pub fn is_in_hand(&self) -> bool
        ensures { result ≡ is_in_hand self.now }
    {
        matches!(self.stage, Stage::Ticket { in_hand: true, .. })
    }

    // A ticket that is not in hand.
    pub fn is_out_of_hand(&self) -> bool
        ensures { result ≡ out_of_hand self.now }
    {
        matches!(self.stage, Stage::Ticket { in_hand: false, .. })
    }

    // A judged ticket.
    pub fn is_judged(&self) -> bool
        ensures { result ≡ is_judged self.now }
    {
        matches!(self.stage, Stage::Ticket { judged: true, .. })
    }

    pub fn is_standing(&self) -> bool
        ensures { result ≡ stands self.now }
    {
        matches!(self.stage, Stage::Standing)
    }
}
