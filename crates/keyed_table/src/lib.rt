//! A table of numbered rows over a slice that its caller lends. The rows in use stand at the front, in strictly rising order of number;
//! the free ones stand behind them, up to the limit; those past the limit are never touched.

#![tactic(auto)]

ghost use Rattle.std.specs.Prelude.{◌≡◌, ℕ, ◌≤◌, length, take};
ghost use Rattle.keyed_table.specs.Rows.{StrictlyRising};

mod change;
pub mod laws;
mod question;
mod reading;
mod search;
mod shift;
mod writing;

/// What has a number; `key` is that number in contracts, and what the order of a table speaks of, which no closure could say.
pub trait Numbered: Copy {
    ghost key: { Self → ℕ };

    fn number(&self) -> u32
        ensures number { result ≡ key self.now };
}

/// The first `used` rows are in use, never more than `limit`, and rise strictly in number.
///
/// A slice and a count, and no map: a book allocates nothing, and the rows are their lender's.
#[derive(Drop)]
pub struct Table<'a, R: Numbered> {
    rows: &'a mut [R],
    used: usize,
    limit: usize,
    pub ghost within_limit: { used ≤ limit },
    pub ghost within_rows: { limit ≤ length rows.now },
    pub ghost rising: { StrictlyRising R.key (take used rows.now) },
}

/// Why a call changed nothing.
#[derive(Clone, Copy, Debug, PartialEq, Eq)]
pub enum Refusal {
    /// As many rows are in use as the limit allows.
    Full,
    /// A row has this number already.
    NumberTaken,
    /// No row has this number.
    NoSuchRow,
}
