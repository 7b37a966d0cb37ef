ghost use Rattle.std.specs.Prelude.{◌≡◌, true};
ghost use Rattle.frame_book.specs.Tickets.{number_on, in_hand};

use ledger::fault::BookFault;
use std::marker::PhantomData;

// The states of a ticket.
#[derive(Clone, Copy)]
pub struct Unjudged;

#[derive(Clone, Copy)]
pub struct Judged;

// A ticket in hand, judged or not, by the number of its member. Only a ticket that is used up may be let go: a rule of the book, which
// its drop keeps by asking for `spent`.
pub struct Ticket<S> {
    pub(crate) number: u32,
    spent: bool,
    state: PhantomData<S>,
}

// A ticket in hand in either state.
pub enum AnyTicket {
    Unjudged(Ticket<Unjudged>),
    Judged(Ticket<Judged>),
}

impl<S> Drop for Ticket<S> {
    fn drop(self)
        requires { self.spent ≡ true }
    {
        let Ticket {
            number: _,
            spent: _,
            state: _,
        } = self;
    }
}

impl<S> Ticket<S> {
    pub(crate) fn of(number: u32) -> Ticket<S>
        ensures { result ≡ in_hand number }
    {
        Ticket {
            number,
            spent: false,
            state: PhantomData,
        }
    }

    // The ticket is used up.
    pub(crate) fn spend(mut self) {
        self.spent = true;
    }

    // The fault of a refusal whose ticket nobody keeps.
    pub(crate) fn let_go(refused: (BookFault, Ticket<S>)) -> BookFault
        ensures { result ≡ refused.0 }
    {
        let (fault, ticket) = refused;
        ticket.spend();
        fault
    }
}

impl AnyTicket {
    // The number of its member.
    pub fn number(&self) -> u32
        ensures { result ≡ number_on self.now }
    {
        match self {
            AnyTicket::Unjudged(ticket) => ticket.number,
            AnyTicket::Judged(ticket) => ticket.number,
        }
    }

    // The ticket is used up.
    pub(crate) fn spend(self) {
        match self {
            AnyTicket::Unjudged(ticket) => ticket.spend(),
            AnyTicket::Judged(ticket) => ticket.spend(),
        }
    }

    // As of a ticket in one state: the two have no type in common.
    pub(crate) fn let_go(refused: (BookFault, AnyTicket)) -> BookFault
        ensures { result ≡ refused.0 }
    {
        let (fault, ticket) = refused;
        ticket.spend();
        fault
    }
}
