//! Reads a script.
ghost use Rattle.std.specs.Prelude.{◌≡◌, ◌+◌, ◌^◌, ◌<◌, ◌≤◌, length, IfOk, true};
ghost use Rattle.std.specs.List.{list_all};
ghost use Rattle.sto_syntax.specs.Lines.{lines_of};
ghost use Rattle.sto_lang.specs.Drafts.{opening};
ghost use Rattle.sto_lang.specs.Files.{is_allowed, with_line, with_lines, whole, file_of};
ghost use Rattle.sto_lang.specs.Reads.{Gives};
ghost use Rattle.sto_lang.specs.Versions.{version_of};
ghost use Rattle.sto_lang.specs.Views.{file};
ghost use Rattle.sto_lang.specs.DraftViews.{draft_of};

use crate::draft::Draft;
use crate::faults::fault_of;
use crate::objects::number_of;
use crate::turns::ended_weight;
use crate::usage::asked;
use crate::{FaultKind, File, ReadError, ScriptFault};
use std::alloc::Global;
use sto_syntax::{form_of, next_line, next_word};

/// The greatest number of bytes of a script.
const MOST_BYTES: usize = 1_048_576;

fn is_allowed(byte: u8) -> bool
    ensures { result ≡ is_allowed byte }
{
    byte == b'\t' || byte == b'\n' || byte == b'\r' || (b' ' <= byte && byte <= b'~')
}

/// Whether all bytes may stand in a script. None is skipped after one that may not, so that many are tested at once.
fn all_allowed(bytes: &[u8]) -> bool
    ensures { result ≡ list_all is_allowed bytes.now }
{
    let mut allowed = true;
    for byte in bytes {
        allowed = allowed & is_allowed(*byte);
    }
    allowed
}

fn fault(line: u32, kind: FaultKind) -> ReadError
    ensures { result ≡ ReadError.Fault (record { line = line; kind = kind }) }
{
    ReadError::Fault(ScriptFault { line, kind })
}

impl Draft {
    /// Takes in the line with this number; `later` are the bytes that follow it. Where all bytes of the script are
    /// allowed, those of the line are not tested again.
    fn add_line(
        &mut self,
        alloc: Global,
        number: u32,
        later: &[u8],
        line: &[u8],
        allowed: bool,
    ) -> Result<(), ReadError>
        requires few { length line.now < 2 ^ 32 }
        requires allowed { allowed ≡ true → list_all is_allowed line.now ≡ true }
        ensures { Gives (λ _. draft_of self.new) result (with_line (draft_of self.old) number (lines_of later.now) line.now) }
    {
        if !allowed && !all_allowed(line) {
            return Err(fault(number, FaultKind::BadByte));
        }
        let Some((word, rest)) = next_word(line) else {
            return Ok(());
        };
        let Some(form) = form_of(self.version, word, rest) else {
            return Err(fault(number, FaultKind::BadLine));
        };
        let asked = asked(self, &form);
        let own = ended_weight(self, &form);
        match fault_of(self, later, &form, asked, own) {
            Some(kind) => Err(fault(number, kind)),
            None => Ok(self.add_form(alloc, number_of(asked), own, &form)?),
        }
    }

    /// The file, where the lines end outside a transaction.
    fn finish(self, alloc: Global, number: u32) -> Result<File, ReadError>
        ensures { Gives file result (whole (draft_of self) number (draft_of self).inside) }
    {
        let Draft {
            version,
            objects,
            threads,
            begun,
            room: _,
            schedule,
            transactions: _,
            weight: _,
        } = self;
        match begun {
            Some(_) => Err(fault(number, FaultKind::Unfinished)),
            None => {
                let decls = objects.into_decls(alloc)?;
                Ok(File {
                    version,
                    decls,
                    threads,
                    schedule,
                })
            }
        }
    }
}

#[tactic(auto, using(crate::proofs::AllowedLemmas::lines_allowed, crate::proofs::AllowedLemmas::first_allowed))]
fn read_lines(alloc: Global, bytes: &[u8]) -> Result<File, ReadError>
    requires { length bytes.now ≤ 1048576 }
    ensures { Gives file result (with_lines opening 1 (lines_of bytes.now)) }
{
    let allowed = all_allowed(bytes);
    let mut draft = Draft::opening(alloc);
    let mut rest = bytes;
    let mut number = 1;
    while let Some((line, later)) = next_line(rest) {
        draft.add_line(alloc, number, later, line, allowed)?;
        rest = later;
        number += 1;
    }
    draft.finish(alloc, number)
}

#[tactic(auto, using(crate::proofs::VersionLemmas::read_version))]
/// The file that the bytes are, or their first fault.
///
/// A file comes exactly where no fault stands in the bytes, and else the first fault in line order.
/// Its version is 2 where the first line with words is `sto 2`, and else 1.
pub fn read(alloc: Global, bytes: &[u8]) -> Result<File, ReadError>
    ensures given { Gives file result (file_of bytes.now) }
    ensures version { IfOk result (λ f. f.version ≡ version_of bytes.now) }
{
    if bytes.len() > MOST_BYTES {
        return Err(fault(0, FaultKind::TooLarge));
    }
    read_lines(alloc, bytes)
}
