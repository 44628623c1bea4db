//! The objects, as the code of a transaction sees them.
ghost use Rattle.std.specs.Prelude.{◌≡◌, map, Err};
ghost use Rattle.sto_model.specs.PlainReplies.{plain_reply};
ghost use Rattle.sto_action.specs.Shortened.{short_of};
ghost use Rattle.sto_action.specs.Progs.{HasAsked};
ghost use Rattle.sto_action.specs.declared.tx.Stop.TheVariants.{Cancels};

use crate::short_reply::{ShortReply, shortened};
use std::marker::Model;
use sto_model::{Call, Reply};

/// Why code stops before its end. `?` hands it on; code looks no further into it.
#[derive(Drop, PartialEq, Eq, Debug)]
pub enum Stop<E> {
    /// It asks a call that has no answer yet.
    Asks(Call),
    /// It gives the transaction up, for this reason.
    Cancels(E),
}

/// What code asks its calls of. Contracts see what its next calls are answered.
#[derive(Drop)]
pub struct Tx<'h> {
    heard: &'h [ShortReply],
    // What comes after these.
    replies: &'h [Reply],
}

impl<'h> Model for Tx<'h> {
    ghost use Rattle.std.specs.Prelude.{◌++◌, List, map};
    ghost use Rattle.sto_model.specs.PlainReplies.{plain_reply};
    ghost use Rattle.sto_action.specs.Shortened.{short_of};
    ghost use Rattle.sto_action.specs.declared.short_reply.ShortReply.{ShortReply};

    ghost Value = { List ShortReply };

    ghost view = { λ t. t.heard.now ++ map short_of (map plain_reply t.replies.now) };
}

impl<'h> Tx<'h> {
    /// Answers the next calls by what was heard.
    pub fn of_heard(heard: &'h [ShortReply]) -> Tx<'h>
        ensures { result ≡ heard.entry.now }
    {
        Tx {
            heard,
            replies: &[],
        }
    }

    /// Answers the next calls by these replies.
    pub fn of_replies(replies: &'h [Reply]) -> Tx<'h>
        ensures { result ≡ map short_of (map plain_reply replies.entry.now) }
    {
        Tx {
            heard: &[],
            replies,
        }
    }

    /// What the call was answered. Where it has no answer yet, the code is to stop.
    pub fn ask<E>(&mut self, call: Call) -> Result<ShortReply, Stop<E>>
        ensures { HasAsked call (λ h. h) self.old self.new result }
    {
        if let [first, rest @ ..] = self.heard {
            let answer = *first;
            self.heard = rest;
            return Ok(answer);
        }
        match self.replies {
            [first, rest @ ..] => {
                let answer = shortened(first);
                self.replies = rest;
                Ok(answer)
            }
            [] => Err(Stop::Asks(call)),
        }
    }

    /// Gives the transaction up, for a reason of the caller's own: `return tx.cancel(NoSale::SoldOut);`
    pub fn cancel<A, E>(&self, reason: E) -> Result<A, Stop<E>>
        ensures { result ≡ Err (Cancels reason) }
    {
        Err(Stop::Cancels(reason))
    }
}
