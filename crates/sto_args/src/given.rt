//! The texts that options give.
ghost use Rattle.std.specs.Prelude.{◌≡◌, IfOk};

use std::alloc::{AllocError, Global};
use std::marker::Model;
use sto_part::NoMemory;

/// The text that an option gives.
#[derive(Drop)]
pub struct GivenText {
    string: String,
}

impl Model for GivenText {
    ghost use Rattle.std.specs.Prelude.{ℕ, List, string_bytes};
    ghost use Rattle.std.specs.Coded.{coded_list, coded_ℕ};

    ghost Value = { List ℕ };

    ghost coded = { coded_list coded_ℕ };

    ghost view = { λ t. string_bytes t.string };
}

impl GivenText {
    /// A text of its own with these bytes.
    pub fn of(alloc: Global, text: &str) -> Result<GivenText, NoMemory>
        ensures { IfOk result (λ t. t ≡ text.now) }
    {
        match String::from_str(alloc, text) {
            Ok(string) => Ok(GivenText { string }),
            Err(AllocError) => Err(NoMemory),
        }
    }

    /// The text as bytes.
    pub fn as_bytes(&self) -> &[u8]
        ensures { result.now ≡ self.now }
    {
        self.string.as_bytes()
    }
}
