//! A scene of commits that load parts: one under a hold, to add to it, and one by a test, without a hold. Tests play
//! it; a call that is left out or changed is refused by what a later one asks.
ghost use Rattle.std.specs.Prelude.{◌≡◌, [], ◌∷◌, pos, negsuc};
ghost use Rattle.sto_test_scenes.specs.Scenes.{one_add, first_read, other_drew_sum, other_added, both_loaded};

use crate::committing::Always;
use sto_core::Cells;
use sto_item::Updates;
use sto_part::Parts;
use sto_plain::Plain;

/// Pass 0 has read part 0. Pass 1 locks it, loads it, and draws a ticket for its word plus 5.
pub fn other_draws_sum(
    plain: Plain<Always>,
    updates: &Updates,
    none: &Parts,
    loaded: &Parts,
) -> (Plain<Always>, u64)
    requires plain { plain ≡ first_read }
    requires updates { updates.now.items ≡ one_add 0 (pos 5) }
    requires none { none.now.items ≡ [] }
    requires loaded { loaded.now.items ≡ 0 ∷ [] }
    ensures words { result.0 ≡ other_drew_sum }
    ensures ticket { result.1 ≡ 1 }
{
    let mut adder = plain.at(1);
    adder.start();
    adder.lock(0);
    adder.word(0, 0);
    let ticket = adder.draw(updates, none, loaded);
    (adder.back(), ticket)
}

/// It commits the sum.
pub fn other_adds(plain: Plain<Always>) -> Plain<Always>
    requires { plain ≡ other_drew_sum }
    ensures { result ≡ other_added }
{
    let mut adder = plain.at(1);
    adder.decide(true);
    adder.put(0, 0, 5);
    adder.release(0);
    adder.back()
}

/// Pass 0 loads part 0 under its hold, which has the sum now, and part 1 by a test.
pub fn first_loads(plain: Plain<Always>) -> Plain<Always>
    requires { plain ≡ other_added }
    ensures { result ≡ both_loaded }
{
    let mut taker = plain.at(0);
    taker.lock(0);
    taker.word(0, 0);
    taker.test(1);
    taker.word(1, 0);
    taker.close(1);
    taker.back()
}

/// It takes 2 from part 0 as it is under the hold, where part 1 is as it was tested.
pub fn first_takes(
    plain: Plain<Always>,
    updates: &Updates,
    none: &Parts,
    loaded: &Parts,
) -> (Plain<Always>, u64)
    requires plain { plain ≡ both_loaded }
    requires updates { updates.now.items ≡ one_add 0 (negsuc 1) }
    requires none { none.now.items ≡ [] }
    requires loaded { loaded.now.items ≡ 0 ∷ 1 ∷ [] }
    ensures { result.1 ≡ 2 }
{
    let mut taker = plain.at(0);
    let ticket = taker.draw(updates, none, loaded);
    taker.check(1);
    taker.decide(true);
    taker.put(0, 0, 3);
    taker.release(0);
    (taker.back(), ticket)
}
