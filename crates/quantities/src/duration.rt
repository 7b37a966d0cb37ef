ghost use Rattle.std.specs.Prelude.{◌≡◌, Some};
ghost use Rattle.std.specs.Option.{ok_or};
ghost use Rattle.quantities.specs.Durations.{letter_of, duration_of, word_of};

use std::fmt;

// How long a load acts.
#[derive(Clone, Copy, PartialEq, Eq, Debug)]
pub enum Duration {
    Permanent,
    Transient,
    Instantaneous,
}

impl fmt::Display for Duration {
    ghost output = { λ duration. Some (word_of duration) };

    fn fmt<W: fmt::Write>(&self, f: &mut fmt::Formatter<W>) -> fmt::Result {
        f.write_str(match self {
            Duration::Permanent => "permanent",
            Duration::Transient => "transient",
            Duration::Instantaneous => "instantaneous",
        })
    }
}

// A letter that stands for no duration.
#[derive(Clone, Copy, PartialEq, Eq, Debug)]
pub struct UnknownLetter(pub u8);

impl TryFrom<u8> for Duration {
    type Error = UnknownLetter;

    ghost try_from_gives = { λ letter r. r ≡ ok_or (duration_of letter) (record { 0 = letter }) };

    fn try_from(letter: u8) -> Result<Duration, UnknownLetter> {
        match letter {
            b'P' => Ok(Duration::Permanent),
            b'T' => Ok(Duration::Transient),
            b'I' => Ok(Duration::Instantaneous),
            _ => Err(UnknownLetter(letter)),
        }
    }
}

impl From<Duration> for u8 {
    ghost from_gives = { λ duration r. r ≡ letter_of duration };

    fn from(duration: Duration) -> u8 {
        match duration {
            Duration::Permanent => b'P',
            Duration::Transient => b'T',
            Duration::Instantaneous => b'I',
        }
    }
}
