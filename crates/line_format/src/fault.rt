ghost use Rattle.std.specs.Prelude.{◌≡◌};
ghost use Rattle.line_format.specs.Faults.{line_number, line_place};
ghost use Rattle.line_format.specs.declared.fault.LineFault.TheVariants.{Book};

use ledger::fault::BookFault;

/// Why a line is refused.
#[derive(Clone, Copy, PartialEq, Eq, Debug)]
pub enum LineFault {
    TooLong,
    UnknownVerb,
    FieldCount { found: u32 },
    BadField { place: u32 },
    Book(BookFault),
}

impl From<BookFault> for LineFault {
    ghost from_gives = { λ e r. r ≡ Book e };

    fn from(inner: BookFault) -> LineFault {
        LineFault::Book(inner)
    }
}

impl LineFault {
    /// The refusal's number.
    pub fn number(self) -> u16
        ensures { result ≡ line_number self }
    {
        match self {
            LineFault::TooLong => 1,
            LineFault::UnknownVerb => 2,
            LineFault::FieldCount { .. } => 3,
            LineFault::BadField { .. } => 4,
            LineFault::Book(fault) => fault.number(),
        }
    }

    /// The refusal's place: the count of fields found, the field, or the book's place.
    pub fn place(self) -> u32
        ensures { result ≡ line_place self }
    {
        match self {
            LineFault::TooLong | LineFault::UnknownVerb => 0,
            LineFault::FieldCount { found } => found,
            LineFault::BadField { place } => place,
            LineFault::Book(fault) => fault.place(),
        }
    }
}
