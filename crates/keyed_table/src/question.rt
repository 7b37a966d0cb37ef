ghost use Rattle.std.specs.Prelude.{◌≡◌, List};
ghost use Rattle.std.specs.Fn.{FnOnceTakesAtMut, FnOnceReturnsAtMut};
ghost use Rattle.keyed_table.specs.Tables.{content};

use super::{Numbered, Table};

impl<'a, R: Numbered> Table<'a, R> {
    /// Asks a question about the rows in use, which may write to them while it is asked and leaves them as they were.
    pub fn ask<A, F: FnOnce(&mut [R]) -> A>(&mut self, question: F) -> A
        requires callable { FnOnceTakesAtMut F.FnOnce question (content self.old) }
        requires leaves { (answer : A) (after : List R) → FnOnceReturnsAtMut F.FnOnce question (content self.old) answer after → after ≡ content self.old }
        ensures answer { FnOnceReturnsAtMut F.FnOnce question (content self.old) result (content self.old) }
        ensures same { self.new ≡ self.old }
    {
        let used = self.used;
        question(&mut self.rows[..used])
    }
}
