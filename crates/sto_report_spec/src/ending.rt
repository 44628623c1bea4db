//! How a transaction ended.
ghost use Rattle.std.specs.Prelude.{◌≡◌, Some};
ghost use Rattle.sto_report_spec.specs.EndingTexts.{ending_text};

use std::fmt;

/// How a transaction ended: it committed with an update, it committed without one, or it cancelled.
#[derive(Clone, Copy, PartialEq, Eq, Debug)]
pub enum Ending {
    Commit,
    Read,
    Cancel,
}

impl Ending {
    /// The word of a report for it.
    pub fn word(self) -> &'static str
        ensures { result.now ≡ ending_text self }
    {
        match self {
            Ending::Commit => "commit",
            Ending::Read => "read",
            Ending::Cancel => "cancel",
        }
    }
}

impl fmt::Display for Ending {
    ghost output = { λ ending. Some (ending_text ending) };

    fn fmt<W: fmt::Write>(&self, f: &mut fmt::Formatter<W>) -> fmt::Result {
        f.write_str(self.word())
    }
}
