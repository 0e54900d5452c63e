//! From bytes to a JSON value.
ghost use Rattle.std.specs.Prelude.{◌≡◌, Some, IfOk};
ghost use Rattle.serde_json.specs.View.{view};
ghost use Rattle.faults.specs.Answers.{Reports, ChecksFirst};
ghost use Rattle.json_text.specs.JsonOf.{json_of, json_fault, text_fault};

use faults::OrMemory;
use serde_json::Value;
use std::alloc::Global;
use std::str;

/// The JSON value that the bytes are.
///
/// # Errors
/// An allocation failure; or `not_json` where the bytes are no JSON value: they are not UTF-8, or not JSON, or nest
/// deeper than `serde_json` reads. No bytes, and bytes that are not UTF-8, are told before the first allocation.
#[tactic(auto, using(crate::proofs::TextTests::utf8_tests, crate::proofs::TextTests::no_bytes), unfolding(crate::specs::JsonOf::json_of))]
pub fn parse<F: Drop>(alloc: Global, bytes: &[u8], not_json: F) -> Result<Value, OrMemory<F>>
    // The value is the one that `serde_json` reads in the bytes.
    ensures value { IfOk result (λ v. json_of bytes.now ≡ Some (view v)) }
    // It is refused exactly if the bytes are no JSON value, unless an allocation failed.
    ensures fault { Reports result (json_fault not_json bytes.now) }
    // If there are no bytes, or they are not UTF-8, it makes no allocation.
    ensures memory { ChecksFirst result (text_fault not_json bytes.now) }
{
    let Ok(text) = str::from_utf8(bytes) else {
        return Err(OrMemory::Fault(not_json));
    };
    match Value::from_str(alloc, text) {
        Ok(value) => Ok(value),
        Err(e) if e.is_memory() => Err(OrMemory::Memory),
        Err(_) => Err(OrMemory::Fault(not_json)),
    }
}
