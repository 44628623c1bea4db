//! Scenes of a pass that reads on as of a later number of the clock, and of words that are closed and opened again.
//! Tests play them; a call that is left out or changed is refused by what a later one asks.
ghost use Rattle.std.specs.Prelude.{◌≡◌, [], ◌∷◌, pos, IfOk};
ghost use Rattle.sto_core.specs.Closed.{closed_core};
ghost use Rattle.sto_test_scenes.specs.Scenes.{one_put, first_read, other_written, first_gave_up, went_on, drew_further, wrote_further};

use crate::committing::Always;
use sto_core::{Cells, Closed};
use sto_item::Updates;
use sto_part::{NoMemory, Parts};
use sto_plain::Plain;

/// Pass 0 has read part 0. Pass 1 commits a word of part 1, with ticket 1.
pub fn other_writes(plain: Plain<Always>, updates: &Updates, none: &Parts) -> (Plain<Always>, u64)
    requires plain { plain ≡ first_read }
    requires updates { updates.now.items ≡ one_put 1 (pos 9) }
    requires none { none.now.items ≡ [] }
    ensures words { result.0 ≡ other_written }
    ensures ticket { result.1 ≡ 1 }
{
    let mut writer = plain.at(1);
    writer.start();
    writer.lock(1);
    let ticket = writer.draw(updates, none, none);
    writer.decide(true);
    writer.put(1, 0, 9);
    writer.release(1);
    (writer.back(), ticket)
}

/// Pass 0 finds part 1 with that ticket, which is above its number. It renews its number, finds part 0 as it was,
/// and reads part 1.
pub fn reads_later(plain: Plain<Always>) -> (Plain<Always>, i64)
    requires { plain ≡ other_written }
    ensures { result.1 ≡ pos 9 }
{
    let mut reader = plain.at(0);
    reader.open(1);
    reader.renew();
    reader.recheck(0);
    reader.open(1);
    let word = reader.word(1, 0);
    (reader.back(), word)
}

/// Pass 0 renews its number, finds part 0 as it was, and draws a ticket for an update of part 1 that rests on part 0.
pub fn rests_on_read(
    plain: Plain<Always>,
    updates: &Updates,
    seen: &Parts,
    none: &Parts,
) -> (Plain<Always>, u64)
    requires plain { plain ≡ other_written }
    requires updates { updates.now.items ≡ one_put 1 (pos 8) }
    requires seen { seen.now.items ≡ 0 ∷ [] }
    requires none { none.now.items ≡ [] }
    ensures { result.1 ≡ 2 }
{
    let mut writer = plain.at(0);
    writer.renew();
    writer.recheck(0);
    writer.lock(1);
    let ticket = writer.draw(updates, seen, none);
    (writer.back(), ticket)
}

/// Both passes are idle after a commit and a drop, and are closed.
pub fn close_both(plain: Plain<Always>) -> Closed<Always>
    requires { plain ≡ first_gave_up }
    ensures { closed_core result first_gave_up.statuses ≡ first_gave_up }
{
    plain.close()
}

/// One pass goes on, from the clock as it was.
pub fn goes_on(closed: Closed<Always>) -> Result<Plain<Always>, NoMemory>
    requires { closed_core closed first_gave_up.statuses ≡ first_gave_up }
    ensures { IfOk result (λ p. p ≡ went_on) }
{
    match Plain::reopen(closed) {
        Ok(plain) => Ok(plain),
        Err((_, NoMemory)) => Err(NoMemory),
    }
}

/// Its first ticket follows the last one of the passes before.
pub fn draws_further(plain: Plain<Always>, updates: &Updates, none: &Parts) -> (Plain<Always>, u64)
    requires plain { plain ≡ went_on }
    requires updates { updates.now.items ≡ one_put 1 (pos 8) }
    requires none { none.now.items ≡ [] }
    ensures words { result.0 ≡ drew_further }
    ensures ticket { result.1 ≡ 3 }
{
    let mut pass = plain.at(0);
    pass.start();
    pass.lock(1);
    let ticket = pass.draw(updates, none, none);
    (pass.back(), ticket)
}

/// It commits.
pub fn commits_further(plain: Plain<Always>) -> Plain<Always>
    requires { plain ≡ drew_further }
    ensures { result ≡ wrote_further }
{
    let mut pass = plain.at(0);
    pass.decide(true);
    pass.put(1, 0, 8);
    pass.release(1);
    pass.back()
}
