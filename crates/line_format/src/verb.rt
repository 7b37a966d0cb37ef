ghost use Rattle.std.specs.Prelude.{◌≡◌, ◌≤◌, length};
ghost use Rattle.std.specs.Option.{ok_or};
ghost use Rattle.line_format.specs.Verbs.{word_of, count_of, verb_of};
ghost use Rattle.line_format.specs.declared.fault.LineFault.TheVariants.{UnknownVerb};

use crate::fault::LineFault;

/// The first field of a line.
#[derive(Clone, Copy, PartialEq, Eq, Debug)]
pub enum Verb {
    Grade,
    Class,
    Culm,
    Scrap,
    Open,
    Hold,
    Free,
    Judge,
    Set,
    Drop,
    Strike,
    Load,
    Without,
    Tell,
}

impl Verb {
    /// The verb as a line has it.
    pub fn word(self) -> &'static [u8]
        ensures word { result.now ≡ word_of self }
        ensures short { length result.now ≤ 7 }
    {
        match self {
            Verb::Grade => b"GRADE",
            Verb::Class => b"CLASS",
            Verb::Culm => b"CULM",
            Verb::Scrap => b"SCRAP",
            Verb::Open => b"OPEN",
            Verb::Hold => b"HOLD",
            Verb::Free => b"FREE",
            Verb::Judge => b"JUDGE",
            Verb::Set => b"SET",
            Verb::Drop => b"DROP",
            Verb::Strike => b"STRIKE",
            Verb::Load => b"LOAD",
            Verb::Without => b"WITHOUT",
            Verb::Tell => b"TELL",
        }
    }

    /// How many fields a line of the verb has, the verb included.
    pub fn count(self) -> u32
        ensures { result ≡ count_of self }
    {
        match self {
            Verb::Tell => 1,
            Verb::Scrap | Verb::Judge | Verb::Set | Verb::Drop | Verb::Strike => 2,
            Verb::Hold | Verb::Free | Verb::Without => 3,
            Verb::Culm | Verb::Load => 6,
            Verb::Grade => 7,
            Verb::Class | Verb::Open => 8,
        }
    }
}

/// The verb that a word is, or refusal 2 where it is none.
impl TryFrom<&[u8]> for Verb {
    type Error = LineFault;

    ghost try_from_gives = { λ word result. result ≡ ok_or (verb_of word.now) UnknownVerb };

    fn try_from(word: &[u8]) -> Result<Verb, LineFault> {
        match word {
            b"GRADE" => Ok(Verb::Grade),
            b"CLASS" => Ok(Verb::Class),
            b"CULM" => Ok(Verb::Culm),
            b"SCRAP" => Ok(Verb::Scrap),
            b"OPEN" => Ok(Verb::Open),
            b"HOLD" => Ok(Verb::Hold),
            b"FREE" => Ok(Verb::Free),
            b"JUDGE" => Ok(Verb::Judge),
            b"SET" => Ok(Verb::Set),
            b"DROP" => Ok(Verb::Drop),
            b"STRIKE" => Ok(Verb::Strike),
            b"LOAD" => Ok(Verb::Load),
            b"WITHOUT" => Ok(Verb::Without),
            b"TELL" => Ok(Verb::Tell),
            _ => Err(LineFault::UnknownVerb),
        }
    }
}
