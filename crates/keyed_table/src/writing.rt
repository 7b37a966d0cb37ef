ghost use Rattle.std.specs.Prelude.{◌≡◌, min, [], length, OnErr};
ghost use Rattle.std.specs.Option.{ok_or};
ghost use Rattle.keyed_table.specs.Rows.{lookup, replaced, without};
ghost use Rattle.keyed_table.specs.Tables.{content, Changed, insertion, enlarged};

use super::shift::{shift_in, shift_out};
use super::{Numbered, Refusal, Table};

impl<'a, R: Numbered> Table<'a, R> {
    /// An empty table over these rows. It uses at most `limit` of them, and no more than there are.
    pub fn new(rows: &'a mut [R], limit: usize) -> Table<'a, R>
        ensures empty { content result ≡ [] }
        ensures limit { result.limit ≡ min limit (length rows.old) }
        ensures rows { result.rows.now ≡ rows.old }
        ensures lent { result.rows.ghost_name ≡ rows.entry.ghost_name }
    {
        let limit = limit.min(rows.len());
        Table {
            rows,
            used: 0,
            limit,
        }
    }

    /// Puts a row with a new number in its place.
    pub fn insert(&mut self, row: R) -> Result<(), Refusal>
        ensures answer { result ≡ insertion R.key row self.old.limit (content self.old) }
        ensures change { Changed self.old self.new (enlarged R.key row self.old.limit (content self.old)) }
        ensures refusal { OnErr result (self.new ≡ self.old) }
    {
        let Err(at) = self.seek(row.number()) else {
            return Err(Refusal::NumberTaken);
        };
        if self.used == self.limit {
            return Err(Refusal::Full);
        }
        let used = self.used;
        shift_in(self.rows, at, used, row);
        self.used += 1;
        Ok(())
    }

    /// Takes the row with this number out; its place is free again.
    pub fn remove(&mut self, number: u32) -> Result<R, Refusal>
        ensures answer { result ≡ ok_or (lookup R.key number (content self.old)) Refusal.NoSuchRow }
        ensures change { Changed self.old self.new (without R.key number (content self.old)) }
        ensures refusal { OnErr result (self.new ≡ self.old) }
    {
        let at = self.find(number).ok_or(Refusal::NoSuchRow)?;
        let row = self.rows()[at];
        let used = self.used;
        shift_out(self.rows, at, used);
        self.used -= 1;
        Ok(row)
    }

    /// Puts `row` in place of the row with its number, and answers the row that was there.
    pub fn replace(&mut self, row: R) -> Result<R, Refusal>
        ensures answer { result ≡ ok_or (lookup R.key (R.key row) (content self.old)) Refusal.NoSuchRow }
        ensures change { Changed self.old self.new (replaced R.key row (content self.old)) }
        ensures refusal { OnErr result (self.new ≡ self.old) }
    {
        let at = self.find(row.number()).ok_or(Refusal::NoSuchRow)?;
        // Not `mem::replace`: the check does not follow an element lent out of a struct with ghost fields.
        let old = self.rows()[at];
        self.rows[at] = row;
        Ok(old)
    }
}
