//! A set as text, in memory.
ghost use Rattle.std.specs.Prelude.{◌≡◌, ◌++◌, IfOk, OnOk, decimal, string_bytes};
ghost use Rattle.cpu_list.specs.CanonicalList.{range_text, list_text};

use cpu_set::{IdSet, Ranges};
use std::alloc::{AllocError, Global};

fn push_number(text: &mut String, n: u16) -> Result<(), AllocError>
    ensures { OnOk result (string_bytes text.new ≡ string_bytes text.old ++ decimal n) }
{
    let mut buffer = itoa::Buffer::new();
    text.push_str(buffer.format(n))
}

fn push_range(text: &mut String, first: u16, last: u16) -> Result<(), AllocError>
    ensures { OnOk result (string_bytes text.new ≡ string_bytes text.old ++ range_text (first, last)) }
{
    push_number(text, first)?;
    if first == last {
        return Ok(());
    }
    text.push_str("-")?;
    push_number(text, last)
}

/// The set's one spelling: rising ranges as long as possible, as `0-2,7`. The empty set is the empty
/// text.
///
/// # Errors
/// An allocation failure.
pub fn print(alloc: Global, set: &IdSet) -> Result<String, AllocError>
    ensures { IfOk result (λ text. string_bytes text ≡ list_text set.now) }
{
    let mut text = String::new(alloc);
    let mut separator = "";
    for (first, last) in Ranges::of(set) {
        text.push_str(separator)?;
        push_range(&mut text, first, last)?;
        separator = ",";
    }
    Ok(text)
}
