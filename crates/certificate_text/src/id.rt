//! The ids of rows.
ghost use Rattle.std.specs.Prelude.{◌≡◌, ◌↔◌, IsTrue, IfOk, IfErr, string_bytes};
ghost use Rattle.std.specs.List.{list_all};
ghost use Rattle.faults.specs.declared.or_memory.OrMemory.TheVariants.{Memory};
ghost use Rattle.certificate_text.specs.IdWord.{is_id_letter, IsId};
ghost use Rattle.certificate_text.specs.OnBad.{OnBad};

use crate::bad_line::BadLine;
use faults::OrMemory;
use std::alloc::Global;

/// How many bytes an id has at most.
pub const ID_LIMIT: usize = 64;

/// Whether the bytes are an id: 1 to 64 ASCII letters, digits, `_`, `-`, `.` and `+`, and neither `.` nor `..`.
pub fn is_id(word: &[u8]) -> bool
    ensures { IsTrue result ↔ IsId word.now }
{
    if word.is_empty() || word.len() > ID_LIMIT {
        return false;
    }
    if word == b".".as_slice() || word == b"..".as_slice() {
        return false;
    }
    are_letters(word)
}

fn are_letters(word: &[u8]) -> bool
    ensures { result ≡ list_all is_id_letter word.now }
{
    word.iter().all(|b| is_letter(*b))
}

fn is_letter(byte: u8) -> bool
    ensures { result ≡ is_id_letter byte }
{
    byte.is_ascii_alphanumeric() || matches!(byte, b'_' | b'-' | b'.' | b'+')
}

/// The id that the word is.
pub fn read_id(alloc: Global, word: &[u8]) -> Result<String, OrMemory<BadLine>>
    ensures ok { IfOk result (λ id. IsId word.now × (string_bytes id ≡ word.now)) }
    ensures bad { OnBad result (IsId word.now → ⊥) }
    ensures memory { IfErr result (λ fault. fault ≡ Memory → IsId word.now) }
{
    if !is_id(word) {
        return Err(OrMemory::Fault(BadLine));
    }
    let Ok(text) = str::from_utf8(word) else {
        return Err(OrMemory::Fault(BadLine));
    };
    Ok(String::from_str(alloc, text)?)
}
