ghost use Rattle.std.specs.Prelude.{◌≡◌, ◌+◌, ◌-◌, ◌<◌, ◌≤◌, ◌++◌, length, take, drop};
ghost use Rattle.std.specs.List.{insert, remove};

/// Puts `row` at the place `at`, and each of the first `used` rows from there on one place up.
pub fn shift_in<R: Copy>(rows: &mut [R], at: usize, used: usize, row: R)
    requires place { at ≤ used }
    requires room { used < length rows.old }
    ensures rows { rows.new ≡ insert (take used rows.old) at row ++ drop (used + 1) rows.old }
{
    rows.copy_within(at..used, at + 1);
    rows[at] = row;
}

/// Puts each of the first `used` rows that stands past the place `at` one place down, over the row there.
pub fn shift_out<R: Copy>(rows: &mut [R], at: usize, used: usize)
    requires place { at < used }
    requires within { used ≤ length rows.old }
    ensures rows { rows.new ≡ remove (take used rows.old) at ++ drop (used - 1) rows.old }
{
    rows.copy_within(at + 1..used, at);
}
