//! A set as a line.
ghost use Rattle.std.specs.Prelude.{◌≡◌, ◌+◌, ◌≤◌, ◌++◌, decimal, length, string_bytes};
ghost use Rattle.std.specs.String.{string_capacity, string_len};
ghost use Rattle.cpu_list.specs.CanonicalList.{range_text};
ghost use Rattle.cgroup_tree.specs.Paths.{list_line};

use crate::paths::push_within;
use crate::room::LINE_ROOM;
use cpu_set::{IdSet, Ranges};

fn push_number(text: &mut String, n: u16)
    requires room { string_len text.old + length (decimal n) ≤ string_capacity text.old }
    ensures bytes { string_bytes text.new ≡ string_bytes text.old ++ decimal n }
    ensures len { string_len text.new ≡ string_len text.old + length (decimal n) }
    ensures capacity { string_capacity text.old ≤ string_capacity text.new }
{
    let mut buffer = itoa::Buffer::new();
    push_within(text, buffer.format(n));
}

fn push_range(text: &mut String, first: u16, last: u16)
    requires room { string_len text.old + length (range_text (first, last)) ≤ string_capacity text.old }
    ensures bytes { string_bytes text.new ≡ string_bytes text.old ++ range_text (first, last) }
    ensures len { string_len text.new ≡ string_len text.old + length (range_text (first, last)) }
    ensures capacity { string_capacity text.old ≤ string_capacity text.new }
{
    push_number(text, first);
    if first != last {
        push_within(text, "-");
        push_number(text, last);
    }
}

/// Makes the line of a set.
pub fn write_line(line: &mut String, ids: &IdSet)
    requires room { LINE_ROOM ≤ string_capacity line.old }
    ensures bytes { string_bytes line.new ≡ list_line ids.now }
    ensures capacity { string_capacity line.old ≤ string_capacity line.new }
{
    line.clear();
    let mut separator = "";
    for (first, last) in Ranges::of(ids) {
        push_within(line, separator);
        push_range(line, first, last);
        separator = ",";
    }
    push_within(line, "\n");
}
