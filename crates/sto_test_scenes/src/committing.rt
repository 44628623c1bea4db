//! Scenes of two passes that commit, call by call. Tests play them; a call that is left out, moved or
//! changed is refused by what the next one asks.
ghost use Rattle.std.specs.Prelude.{◌≡◌, [], ◌∷◌, pos};
ghost use Rattle.sto_test_scenes.specs.Scenes.{always, one_put, two_passes, both_drawn, second_committed, first_gave_up, first_read, other_read, other_drew, other_committed, first_failed};

use sto_core::Cells;
use sto_item::Updates;
use sto_part::{Naming, Parts};
use sto_plain::Plain;
use sto_version::Version;

/// A type at which all contents are valid.
#[derive(Drop)]
pub struct Always;

impl Naming for Always {
    ghost sizes = { λ _. [] };

    ghost valid = { always };
}

/// Pass 0 draws ticket 1 for part 0, and pass 1 ticket 2 for part 1.
pub fn both_draw(
    plain: Plain<Always>,
    first: &Updates,
    second: &Updates,
    none: &Parts,
) -> (Plain<Always>, u64, u64)
    requires plain { plain ≡ two_passes }
    requires first { first.now.items ≡ one_put 0 (pos 1) }
    requires second { second.now.items ≡ one_put 1 (pos 9) }
    requires none { none.now.items ≡ [] }
    ensures words { result.0 ≡ both_drawn }
    ensures tickets { (result.1 ≡ 1) × (result.2 ≡ 2) }
{
    let mut pass = plain.at(0);
    pass.start();
    pass.lock(0);
    let earlier = pass.draw(first, none, none);
    let mut pass = pass.back().at(1);
    pass.start();
    pass.lock(1);
    let later = pass.draw(second, none, none);
    (pass.back(), earlier, later)
}

/// The later ticket commits while the earlier one is undecided.
pub fn second_commits(plain: Plain<Always>) -> Plain<Always>
    requires { plain ≡ both_drawn }
    ensures { result ≡ second_committed }
{
    let mut later = plain.at(1);
    later.decide(true);
    later.put(1, 0, 9);
    later.release(1);
    later.back()
}

/// The earlier ticket is dropped.
pub fn first_gives_up(plain: Plain<Always>) -> Plain<Always>
    requires { plain ≡ second_committed }
    ensures { result ≡ first_gave_up }
{
    let mut earlier = plain.at(0);
    earlier.decide(false);
    earlier.unlock(0);
    earlier.back()
}

/// Pass 0 reads part 0.
pub fn first_reads(plain: Plain<Always>) -> Plain<Always>
    requires { plain ≡ two_passes }
    ensures { result ≡ first_read }
{
    let mut first = plain.at(0);
    first.start();
    first.open(0);
    first.word(0, 0);
    first.close(0);
    first.back()
}

/// Pass 1 reads it too.
pub fn other_reads(plain: Plain<Always>) -> Plain<Always>
    requires { plain ≡ first_read }
    ensures { result ≡ other_read }
{
    let mut other = plain.at(1);
    other.start();
    other.open(0);
    other.word(0, 0);
    other.close(0);
    other.back()
}

/// Pass 1 locks the part, draws a ticket for its word plus 1, and then checks the part.
pub fn other_draws(
    plain: Plain<Always>,
    updates: &Updates,
    seen: &Parts,
    none: &Parts,
) -> (Plain<Always>, u64)
    requires plain { plain ≡ other_read }
    requires updates { updates.now.items ≡ one_put 0 (pos 1) }
    requires seen { seen.now.items ≡ 0 ∷ [] }
    requires none { none.now.items ≡ [] }
    ensures words { result.0 ≡ other_drew }
    ensures ticket { result.1 ≡ 1 }
{
    let mut writer = plain.at(1);
    writer.lock(0);
    let ticket = writer.draw(updates, seen, none);
    writer.check(0);
    (writer.back(), ticket)
}

/// It commits, puts the word and releases the part.
pub fn other_commits(plain: Plain<Always>) -> Plain<Always>
    requires { plain ≡ other_drew }
    ensures { result ≡ other_committed }
{
    let mut winner = plain.at(1);
    winner.decide(true);
    winner.put(0, 0, 1);
    winner.release(0);
    winner.back()
}

/// Pass 0 goes on with what it read before. Its check finds the ticket of pass 1, so it drops its own.
pub fn first_fails(
    plain: Plain<Always>,
    updates: &Updates,
    seen: &Parts,
    none: &Parts,
) -> (Plain<Always>, u64, Version)
    requires plain { plain ≡ other_committed }
    requires updates { updates.now.items ≡ one_put 0 (pos 1) }
    requires seen { seen.now.items ≡ 0 ∷ [] }
    requires none { none.now.items ≡ [] }
    ensures words { result.0 ≡ first_failed }
    ensures ticket { result.1 ≡ 2 }
    ensures found { result.2.0 ≡ 3 }
{
    let mut loser = plain.at(0);
    loser.lock(0);
    let ticket = loser.draw(updates, seen, none);
    let found = loser.check(0);
    loser.decide(false);
    loser.unlock(0);
    (loser.back(), ticket, found)
}

/// Pass 0 reads the part again, and draws a new ticket for the word that it has read now.
pub fn first_tries_again(
    plain: Plain<Always>,
    updates: &Updates,
    seen: &Parts,
    none: &Parts,
) -> (Plain<Always>, u64)
    requires plain { plain ≡ first_failed }
    requires updates { updates.now.items ≡ one_put 0 (pos 2) }
    requires seen { seen.now.items ≡ 0 ∷ [] }
    requires none { none.now.items ≡ [] }
    ensures { result.1 ≡ 3 }
{
    let mut again = plain.at(0);
    again.start();
    again.open(0);
    again.word(0, 0);
    again.close(0);
    again.lock(0);
    let ticket = again.draw(updates, seen, none);
    (again.back(), ticket)
}
