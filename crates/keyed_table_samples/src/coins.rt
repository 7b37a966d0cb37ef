ghost use Rattle.std.specs.Prelude.{◌≡◌, ◌<◌, [], ◌∷◌};
ghost use Rattle.keyed_table_samples.specs.Coins.{coin_number};

use keyed_table::{Numbered, Table};

#[derive(Clone, Copy, Debug, PartialEq, Eq)]
pub struct Coin {
    pub number: u32,
    pub worth: u16,
}

impl Numbered for Coin {
    ghost key = { coin_number };

    fn number(&self) -> u32 {
        self.number
    }
}

/// Two coins in the order of their numbers, by way of a table.
pub fn in_order(low: Coin, high: Coin) -> [Coin; 2]
    requires { low.number < high.number }
    ensures { result ≡ low ∷ high ∷ [] }
{
    let mut rows = [high; 2];
    let mut table = Table::new(&mut rows, 2);
    table.insert(high).unwrap();
    table.insert(low).unwrap();
    rows
}

#[cfg(test)]
mod tests {
    use super::*;
    use keyed_table::Refusal;

    const BLANK: Coin = Coin {
        number: 0,
        worth: 0,
    };

    fn coin(number: u32) -> Coin {
        Coin { number, worth: 5 }
    }

    #[test]
    fn rows_inserted_out_of_order_stand_in_order(rt: HostRuntime) {
        let mut rows = [BLANK; 4];
        let mut table = Table::new(&mut rows, 4);
        assert_eq!(rt; table.insert(coin(20)), Ok(()));
        assert_eq!(rt; table.insert(coin(30)), Ok(()));
        assert_eq!(rt; table.insert(coin(10)), Ok(()));
        assert_eq!(rt; table.rows(), [coin(10), coin(20), coin(30)].as_slice());
        assert_eq!(rt; table.find(20), Some(1));
        assert_eq!(rt; table.find(25), None);
    }

    #[test]
    fn a_number_in_use_is_refused(rt: HostRuntime) {
        let mut rows = [BLANK; 2];
        let mut table = Table::new(&mut rows, 2);
        assert_eq!(rt; table.insert(coin(7)), Ok(()));
        assert_eq!(rt; table.insert(coin(7)), Err(Refusal::NumberTaken));
        assert_eq!(rt; table.count(), 1);
    }

    #[test]
    fn every_row_in_use_is_changed(rt: HostRuntime) {
        let mut rows = [BLANK; 2];
        let mut table = Table::new(&mut rows, 2);
        assert_eq!(rt; table.insert(coin(7)), Ok(()));
        table.change_all(|coin| Coin {
            number: coin.number,
            worth: coin.worth.saturating_sub(3),
        });
        assert_eq!(rt;
            table.get(7),
            Some(Coin {
                number: 7,
                worth: 2,
            })
        );
    }
}
