ghost use Rattle.std.specs.Prelude.{◌≡◌, ◌<◌, [], ◌∷◌, length, slice_set};
ghost use Rattle.std.specs.List.{count_by};
ghost use Rattle.keyed_table.specs.Tables.{content};

use keyed_table::{Numbered, Table};

#[derive(Clone, Copy, Debug, PartialEq, Eq)]
pub struct Seat {
    pub taken: bool,
    pub number: u8,
}

impl Numbered for Seat {
    ghost key = { λ seat. seat.number };

    fn number(&self) -> u32 {
        u32::from(self.number)
    }
}

/// How many seats there are.
pub fn how_many(seats: &mut Table<'_, Seat>) -> usize
    ensures count { result ≡ length (content seats.old) }
    ensures same { seats.new ≡ seats.old }
{
    seats.ask(|rows| rows.len())
}

/// How many of the seats are taken.
fn taken(seats: &[Seat]) -> usize
    ensures { result ≡ count_by (λ seat. seat.taken) seats.now }
{
    seats.iter().filter(|seat| seat.taken).count()
}

/// How many seats would be taken if `seat` stood at this place.
pub fn taken_with(seats: &mut Table<'_, Seat>, at: usize, seat: Seat) -> usize
    requires place { at < length (content seats.old) }
    ensures count { result ≡ count_by (λ seat. seat.taken) (slice_set (content seats.old) at seat) }
    ensures same { seats.new ≡ seats.old }
{
    seats.ask(
        |rows|
            requires place { at < length rows.old }
            ensures count { result ≡ count_by (λ seat. seat.taken) (slice_set rows.old at seat) }
            ensures same { rows.new ≡ rows.old }
        {
            let before = rows[at];
            rows[at] = seat;
            let count = taken(rows);
            rows[at] = before;
            count
        },
    )
}

/// What the rows hold after a seat came and went and another came: that one stands where the first did.
pub fn reused(blank: Seat, first: Seat, second: Seat) -> [Seat; 2]
    ensures { result ≡ second ∷ blank ∷ [] }
{
    let mut rows = [blank; 2];
    let mut table = Table::new(&mut rows, 1);
    table.insert(first).unwrap();
    table.remove(first.number()).unwrap();
    table.insert(second).unwrap();
    rows
}

#[cfg(test)]
mod tests {
    use super::*;
    use keyed_table::Refusal;

    fn seat(number: u8) -> Seat {
        Seat {
            taken: false,
            number,
        }
    }

    #[test]
    fn a_full_table_takes_a_row_where_one_was_removed(rt: HostRuntime) {
        let mut rows = [seat(0); 2];
        let mut table = Table::new(&mut rows, 2);
        assert_eq!(rt; table.insert(seat(2)), Ok(()));
        assert_eq!(rt; table.insert(seat(1)), Ok(()));
        assert_eq!(rt; table.insert(seat(3)), Err(Refusal::Full));
        assert_eq!(rt; table.remove(1), Ok(seat(1)));
        assert_eq!(rt; table.remove(1), Err(Refusal::NoSuchRow));
        assert_eq!(rt; table.insert(seat(3)), Ok(()));
        assert_eq!(rt; table.rows(), [seat(2), seat(3)].as_slice());
    }

    #[test]
    fn a_row_is_replaced_by_one_of_its_number(rt: HostRuntime) {
        let mut rows = [seat(0); 2];
        let mut table = Table::new(&mut rows, 2);
        let taken = Seat {
            taken: true,
            number: 8,
        };
        assert_eq!(rt; table.replace(taken), Err(Refusal::NoSuchRow));
        assert_eq!(rt; table.insert(seat(8)), Ok(()));
        assert_eq!(rt; table.replace(taken), Ok(seat(8)));
        assert_eq!(rt; table.get(8), Some(taken));
        assert_eq!(rt; how_many(&mut table), 1);
    }

    #[test]
    fn a_seat_is_counted_where_it_might_stand(rt: HostRuntime) {
        let mut rows = [seat(0); 2];
        let mut table = Table::new(&mut rows, 2);
        assert_eq!(rt; table.insert(seat(1)), Ok(()));
        let taken = Seat {
            taken: true,
            number: 1,
        };
        assert_eq!(rt; taken_with(&mut table, 0, taken), 1);
        assert_eq!(rt; table.get(1), Some(seat(1)));
    }

    #[test]
    fn rows_past_the_limit_stay(rt: HostRuntime) {
        let mut rows = [seat(9), seat(9), seat(9)];
        let mut table = Table::new(&mut rows, 1);
        assert_eq!(rt; table.insert(seat(5)), Ok(()));
        assert_eq!(rt; table.insert(seat(4)), Err(Refusal::Full));
        assert_eq!(rt; rows, [seat(5), seat(9), seat(9)]);
    }
}
