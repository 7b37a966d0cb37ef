ghost use Rattle.std.specs.Prelude.{ℕ, List};
ghost use Rattle.keyed_table.specs.Laws.{Finding, Adding, Removing, Replacing};

use super::Numbered;

/// Computes nothing: its contract holds the laws of the words that the table's contracts are written in.
pub fn laws_of_rows<R: Numbered>()
    ensures finding { Finding R.key }
    ensures adding { (x : R) (xs : List R) → Adding R.key x xs }
    ensures removing { (n : ℕ) (xs : List R) → Removing R.key n xs }
    ensures replacing { (x : R) (xs : List R) → Replacing R.key x xs }
{}
