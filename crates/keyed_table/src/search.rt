ghost use Rattle.std.specs.Prelude.{◌≡◌, ◌+◌, ◌*◌, ◌^◌, ◌<◌, ◌≤◌};
ghost use Rattle.keyed_table.specs.Rows.{StrictlyRising, below};

use super::Numbered;

/// How many rows have a number below `number`, where the numbers rise. Each turn reads one row at most.
// The library's searches promise nothing of how many rows they read.
pub fn lower_bound<R: Numbered>(rows: &[R], number: u32) -> usize
    requires order { StrictlyRising R.key rows.now }
    ensures place { result ≡ below R.key number rows.now }
{
    let mut low = 0;
    let mut high = rows.len();
    let turns = binary_digits(rows.len());
    for turn in 0..turns {
        if low < high {
            let middle = low.midpoint(high);
            if rows[middle].number() < number {
                low = middle + 1;
            } else {
                high = middle;
            }
        }
    }
    low
}

/// How many binary digits the count has, none for 0.
fn binary_digits(count: usize) -> u32
    ensures enough { count < 2 ^ result }
    ensures needed { 2 ^ result ≤ 2 * count + 1 }
{
    usize::BITS - count.leading_zeros()
}
