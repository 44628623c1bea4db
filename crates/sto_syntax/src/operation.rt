//! Operations.
ghost use Rattle.std.specs.Prelude.{◌≡◌};
ghost use Rattle.sto_syntax.specs.Operations.{operation_of, late_operation_of, test_of};

use sto_part::Test;

/// What is asked of an object. `Compare` is the word `test` with its comparison.
#[derive(Clone, Copy, PartialEq, Eq)]
pub enum OperationWord {
    Get,
    Set,
    Add,
    Compare(Test),
    Take,
    Put,
    Remove,
    Has,
    Len,
    Next,
    Count,
    Scan,
    Push,
    Pop,
}

/// The comparison that a word is.
pub fn test_of(word: &[u8]) -> Option<Test>
    ensures { result ≡ test_of word.now }
{
    if word == b"eq".as_slice() {
        Some(Test::Eq)
    } else if word == b"ne".as_slice() {
        Some(Test::Ne)
    } else if word == b"lt".as_slice() {
        Some(Test::Lt)
    } else if word == b"le".as_slice() {
        Some(Test::Le)
    } else if word == b"gt".as_slice() {
        Some(Test::Gt)
    } else if word == b"ge".as_slice() {
        Some(Test::Ge)
    } else {
        None
    }
}

/// The operation that a word is in version 2 alone.
fn late_operation_of(word: &[u8]) -> Option<OperationWord>
    ensures { result ≡ late_operation_of word.now }
{
    if word == b"push".as_slice() {
        Some(OperationWord::Push)
    } else if word == b"pop".as_slice() {
        Some(OperationWord::Pop)
    } else {
        None
    }
}

/// The operation that a word is in a script of this version, `test` aside.
pub fn operation_of(version: u32, word: &[u8]) -> Option<OperationWord>
    ensures { result ≡ operation_of version word.now }
{
    if word == b"get".as_slice() {
        Some(OperationWord::Get)
    } else if word == b"set".as_slice() {
        Some(OperationWord::Set)
    } else if word == b"add".as_slice() {
        Some(OperationWord::Add)
    } else if word == b"take".as_slice() {
        Some(OperationWord::Take)
    } else if word == b"put".as_slice() {
        Some(OperationWord::Put)
    } else if word == b"remove".as_slice() {
        Some(OperationWord::Remove)
    } else if word == b"has".as_slice() {
        Some(OperationWord::Has)
    } else if word == b"len".as_slice() {
        Some(OperationWord::Len)
    } else if word == b"next".as_slice() {
        Some(OperationWord::Next)
    } else if word == b"count".as_slice() {
        Some(OperationWord::Count)
    } else if word == b"scan".as_slice() {
        Some(OperationWord::Scan)
    } else if version == 2 {
        late_operation_of(word)
    } else {
        None
    }
}
