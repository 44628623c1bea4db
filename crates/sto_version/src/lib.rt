//! Version words: the ticket of a part's last writer, and the bit by which a commit locks the part.
//!
//! The layout is the lock word of TL2 (Dice, Shalev, Shavit, "Transactional Locking II", DISC 2006,
//! section 2), with the lock bit lowest.
#![tactic(auto)]

ghost use Rattle.std.specs.Prelude.{◌≡◌, ◌<◌, ◌^◌, true, false, not};
ghost use Rattle.sto_version.specs.Versions.{ticket_of, is_free, version_of};

/// A version word: twice the ticket, plus 1 where the part is locked.
#[derive(Clone, Copy, PartialEq, Eq, Debug)]
pub struct Version(pub u64);

/// The version of a part that nobody has written or locked yet.
pub const FREE0: Version = Version(0);

impl Version {
    /// The version of a part that a commit with this ticket has let go.
    pub fn released(ticket: u64) -> Version
        requires { ticket < 2 ^ 63 }
        ensures { result ≡ record { 0 = version_of ticket false } }
    {
        Version(2 * ticket)
    }

    /// The ticket of the last writer, or 0 where there is none.
    pub fn ticket(self) -> u64
        ensures ticket { result ≡ ticket_of self.0 }
        ensures small { result < 2 ^ 63 }
    {
        self.0 / 2
    }

    /// Whether a commit holds the part.
    pub fn is_locked(self) -> bool
        ensures { result ≡ not (is_free self.0) }
    {
        self.0 % 2 != 0
    }

    /// The same ticket, with the lock bit set.
    pub fn locked(self) -> Version
        ensures { result ≡ record { 0 = version_of (ticket_of self.0) true } }
    {
        Version(self.0 | 1)
    }
}
