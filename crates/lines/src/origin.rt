// Who refused a record.
ghost use Rattle.std.specs.Prelude.{◌≡◌, Some};
ghost use Rattle.lines.specs.Words.{origin_word};

use std::fmt;

#[derive(Clone, Copy, PartialEq, Eq, Debug)]
pub enum Origin {
    // the record itself is damaged, or the tape is too long
    Tape,
    // the part refused what the record asked for
    Part,
}

impl Origin {
    // The word that a fault line ends with.
    pub fn word(self) -> &'static str
        ensures { result.now ≡ origin_word self }
    {
        match self {
            Origin::Tape => "tape",
            Origin::Part => "part",
        }
    }
}

impl fmt::Display for Origin {
    ghost output = { λ origin. Some (origin_word origin) };

    fn fmt<W: fmt::Write>(&self, f: &mut fmt::Formatter<W>) -> fmt::Result {
        f.pad(self.word())
    }
}
