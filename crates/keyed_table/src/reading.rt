ghost use Rattle.std.specs.Prelude.{◌≡◌, length};
ghost use Rattle.keyed_table.specs.Rows.{lookup, Found, Sought};
ghost use Rattle.keyed_table.specs.Tables.{content};

use super::search::lower_bound;
use super::{Numbered, Table};

impl<'a, R: Numbered> Table<'a, R> {
    /// How many rows are in use.
    pub fn count(&self) -> usize
        ensures count { result ≡ length (content self.now) }
    {
        self.rows().len()
    }

    /// The rows in use.
    pub fn rows(&self) -> &[R]
        ensures rows { result.now ≡ content self.now }
    {
        &self.rows[..self.used]
    }

    /// The place of the row with this number, or else the place where such a row belongs.
    pub(crate) fn seek(&self, number: u32) -> Result<usize, usize>
        ensures place { Sought R.key number (content self.now) result }
    {
        let rows = self.rows();
        let at = lower_bound(rows, number);
        if rows.get(at).is_some_and(|row| row.number() == number) {
            Ok(at)
        } else {
            Err(at)
        }
    }

    /// The place of the row with this number among the rows in use.
    pub fn find(&self, number: u32) -> Option<usize>
        ensures place { Found R.key number (content self.now) result }
    {
        self.seek(number).ok()
    }

    /// The row with this number.
    pub fn get(&self, number: u32) -> Option<R>
        ensures row { result ≡ lookup R.key number (content self.now) }
    {
        let rows = self.rows();
        self.find(number).map(|at| rows[at])
    }
}
