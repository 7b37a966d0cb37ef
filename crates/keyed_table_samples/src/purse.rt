ghost use Rattle.std.specs.Prelude.{◌≡◌, [], map};
ghost use Rattle.std.specs.Option.{ok_or};
ghost use Rattle.keyed_table.specs.Rows.{lookup, without, replaced};
ghost use Rattle.keyed_table.specs.Tables.{content, insertion, enlarged};
ghost use Rattle.keyed_table_samples.specs.Coins.{coin_number, worn};

use crate::coins::Coin;
use keyed_table::{Refusal, Table};

/// Coins by number.
#[derive(Drop)]
pub struct Purse<'a> {
    coins: Table<'a, Coin>,
}

impl<'a> Purse<'a> {
    pub fn new(rows: &'a mut [Coin]) -> Purse<'a>
        ensures empty { content result.coins ≡ [] }
    {
        let limit = rows.len();
        Purse {
            coins: Table::new(rows, limit),
        }
    }

    pub fn coin(&self, number: u32) -> Option<Coin>
        ensures coin { result ≡ lookup coin_number number (content self.now.coins) }
    {
        self.coins.get(number)
    }

    pub fn put(&mut self, coin: Coin) -> Result<(), Refusal>
        ensures answer { result ≡ insertion coin_number coin self.old.coins.limit (content self.old.coins) }
        ensures coins { content self.new.coins ≡ enlarged coin_number coin self.old.coins.limit (content self.old.coins) }
    {
        self.coins.insert(coin)
    }

    pub fn take(&mut self, number: u32) -> Result<Coin, Refusal>
        ensures answer { result ≡ ok_or (lookup coin_number number (content self.old.coins)) Refusal.NoSuchRow }
        ensures coins { content self.new.coins ≡ without coin_number number (content self.old.coins) }
    {
        self.coins.remove(number)
    }

    pub fn trade(&mut self, coin: Coin)
        ensures coins { content self.new.coins ≡ replaced coin_number coin (content self.old.coins) }
    {
        let _ = self.coins.replace(coin);
    }

    /// Takes worth off every coin, down to nothing.
    pub fn wear(&mut self, by: u16)
        ensures coins { content self.new.coins ≡ map (worn by) (content self.old.coins) }
    {
        self.coins.change_all(|coin| Coin {
            number: coin.number,
            worth: coin.worth.saturating_sub(by),
        });
    }
}
