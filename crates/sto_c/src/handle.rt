//! Values that C holds by a pointer.
ghost use Rattle.std.specs.Prelude.{◌≡◌, ◌≢◌, ◌↔◌, IfSome, IfNone};
ghost use Rattle.std.specs.Bool.{MatchBool};
ghost use Rattle.sto_c.specs.declared.content.HandleContent.{HandleContent};
ghost use Rattle.sto_c.specs.declared.content.HandleContent.TheVariants.{Nothing};
ghost use Rattle.sto_c.specs.contracts.content.HandleContent.{the_row};
ghost use Rattle.sto_c.specs.Content.{IsHeld, IsFull};

use crate::content::HandleContent;
use crate::loose::Loose;
use std::alloc::Global;
use std::marker::Model;
use std::{mem, ptr};

/// The pointer of a box, or none.
#[repr(C)]
pub struct Raw {
    at: *mut u8,
    pub ghost value: { HandleContent } by { the_row.coded },
}

impl Model for Raw {
    ghost use Rattle.sto_c.specs.Raw.{raw_owns};

    ghost also_owns = { λ r. raw_owns r.at r.value };
}

impl Drop for Raw {
    fn drop(self) {
        let Raw { at: _ } = self;
    }
}

impl Raw {
    fn none() -> Raw
        ensures { result.value ≡ Nothing }
    {
        Raw {
            at: ptr::null_mut(),
        }
    }

    fn of(loose: Loose<HandleContent, Global>) -> Raw
        requires { IsFull loose.value }
        ensures { result.value ≡ loose.value }
    {
        let Loose { at, alloc: _ } = loose;
        Raw {
            at: at.cast::<u8>(),
        }
    }

    fn into_loose(self, alloc: Global) -> Loose<HandleContent, Global>
        requires { self.value ≢ Nothing }
        ensures { (result.value ≡ self.value) × IsHeld self.value }
    {
        let Raw { at } = self;
        Loose {
            at: at.cast::<HandleContent>(),
            alloc,
        }
    }
}

/// What C holds: a box where it is full.
#[derive(Drop)]
#[repr(C)]
pub struct Handle {
    raw: Raw,
    full: u64,
    ghost told: { (full ≡ 1) ↔ (raw.value ≢ Nothing) },
}

impl Handle {
    fn none() -> Handle
        ensures { result.raw.value ≡ Nothing }
    {
        Handle {
            raw: Raw::none(),
            full: 0,
        }
    }

    /// Whether it holds something.
    pub(crate) fn is_full(&self) -> bool
        ensures { MatchBool result (self.now.raw.value ≢ Nothing) (self.now.raw.value ≡ Nothing) }
    {
        self.full == 1
    }

    /// Puts a value in.
    pub(crate) fn put(&mut self, value: Box<HandleContent>)
        requires { IsFull value.value }
        ensures { self.new.raw.value ≡ value.value }
    {
        let old = mem::replace(
            self,
            Handle {
                raw: Raw::of(Loose::of(value)),
                full: 1,
            },
        );
        mem::drop(old);
    }

    /// Takes the value out.
    pub(crate) fn take(&mut self, alloc: Global) -> Option<Box<HandleContent>>
        ensures some { IfSome result (λ b. (b.value ≡ self.old.raw.value) × IsFull b.value) }
        ensures none { IfNone result (self.old.raw.value ≡ Nothing) }
        ensures empty { self.new.raw.value ≡ Nothing }
    {
        if self.full != 1 {
            return None;
        }
        let Handle { raw, full: _ } = mem::replace(self, Handle::none());
        Some(raw.into_loose(alloc).into_box())
    }
}
