ghost use Rattle.std.specs.Prelude.{◌≡◌, map};
ghost use Rattle.keyed_table.specs.Rows.{Computes, KeepsNumber};
ghost use Rattle.keyed_table.specs.Tables.{content, Changed};

use super::{Numbered, Table};

impl<'a, R: Numbered> Table<'a, R> {
    /// Changes every row in use by `change`, which keeps each row's number.
    pub fn change_all<F: Fn(R) -> R>(&mut self, change: F)
        requires callable { F.IsAlwaysCallable change }
        requires numbers { KeepsNumber R.key (F.post change) }
        ensures change { (does : R → R) → Computes (F.post change) does → Changed self.old self.new (map does (content self.old)) }
        ensures frame { Changed self.old self.new (content self.new) }
        ensures numbers { map R.key (content self.new) ≡ map R.key (content self.old) }
    {
        let used = self.used;
        change_rows(&mut self.rows[..used], change);
    }
}

/// Changes each of the rows.
fn change_rows<R: Numbered, F: Fn(R) -> R>(rows: &mut [R], change: F)
    requires callable { F.IsAlwaysCallable change }
    requires numbers { KeepsNumber R.key (F.post change) }
    ensures numbers { map R.key rows.new ≡ map R.key rows.old }
    ensures rows { (does : R → R) → Computes (F.post change) does → rows.new ≡ map does rows.old }
{
    for row in rows.iter_mut() {
        *row = change(*row);
    }
}
