ghost use Rattle.std.specs.Prelude.{◌≡◌};
ghost use Rattle.ledger.specs.Faults.{book_number, book_place};
ghost use Rattle.ledger.specs.declared.fault.BookFault.TheVariants.{Measure, Clause};

use design_code::verdict::Refused;
use quantities::fault::MeasureFault;

// Why a book refuses a call.
#[derive(Clone, Copy, PartialEq, Eq, Debug)]
pub enum BookFault {
    Measure(MeasureFault),
    AlreadyDefined,
    NotDefined,
    CulmKnown,
    CulmUnknown,
    CulmNotOnRack,
    NoCulmRow,
    MemberKnown,
    NotStanding,
    NoMemberRow,
    NoTicket,
    OtherState,
    BundleFull,
    OtherGrade,
    NotOfBundle,
    NoCulm,
    Clause { number: u32 },
}

impl From<MeasureFault> for BookFault {
    ghost from_gives = { λ e r. r ≡ Measure e };

    fn from(inner: MeasureFault) -> BookFault {
        BookFault::Measure(inner)
    }
}

impl From<Refused> for BookFault {
    ghost from_gives = { λ e r. r ≡ Clause e.clause };

    fn from(verdict: Refused) -> BookFault {
        BookFault::Clause {
            number: verdict.clause,
        }
    }
}

impl BookFault {
    // The refusal's number.
    pub fn number(self) -> u16
        ensures { result ≡ book_number self }
    {
        match self {
            BookFault::Measure(fault) => fault.number(),
            BookFault::AlreadyDefined => 8,
            BookFault::NotDefined => 9,
            BookFault::CulmKnown => 10,
            BookFault::CulmUnknown => 11,
            BookFault::CulmNotOnRack => 12,
            BookFault::NoCulmRow => 13,
            BookFault::MemberKnown => 14,
            BookFault::NotStanding => 15,
            BookFault::NoMemberRow => 16,
            BookFault::NoTicket => 17,
            BookFault::OtherState => 18,
            BookFault::BundleFull => 19,
            BookFault::OtherGrade => 20,
            BookFault::NotOfBundle => 21,
            BookFault::NoCulm => 22,
            BookFault::Clause { .. } => 23,
        }
    }

    // The refusal's place: the field of a measure, the number of a clause, else 0.
    pub fn place(self) -> u32
        ensures { result ≡ book_place self }
    {
        match self {
            BookFault::Measure(fault) => u32::from(fault.place()),
            BookFault::Clause { number } => number,
            _ => 0,
        }
    }
}
