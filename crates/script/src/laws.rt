//! Which lines are refused, and the limits of a script: laws over the definitions alone. Nothing here runs.
ghost use Rattle.std.specs.Prelude.{◌≡◌, true, false, codes};
ghost use Rattle.script.specs.Commands as command;
ghost use Rattle.script.specs.CpuLines.{CpuLinesAreRead};
ghost use Rattle.script.specs.Lines.{words_of};
ghost use Rattle.script.specs.Requests.{request_of, nothing, bad, asks};
ghost use Rattle.script.specs.TextLaws.{NoTextIsBad};

use crate::line_buffer::MOST_LINE_BYTES;
use crate::running::{MOST_READS, PIECE};

/// A line that is not UTF-8 is refused.
pub fn no_text_is_bad()
    ensures { NoTextIsBad }
{}

/// A line that a program writes for a CPU that goes offline or comes online is read as that.
pub fn cpu_lines()
    ensures { CpuLinesAreRead }
{}

/// A script has at most 1,000,000 reads to come to its end, each of 8,192 bytes at most. A line of it has at most 8,192
/// bytes.
pub fn the_limits()
    ensures reads { MOST_READS ≡ 1000000 }
    ensures piece { PIECE ≡ 8192 }
    ensures line { MOST_LINE_BYTES ≡ 8192 }
{}

/// Worked rows of docs/formats.md, "Scripts": the definitions, evaluated.
pub fn worked()
    ensures no_words { request_of (words_of (codes "  ")) ≡ nothing }
    ensures no_command { request_of (words_of (codes "Rebalance")) ≡ bad }
    ensures bare { request_of (words_of (codes " rebalance ")) ≡ asks (command.rebalance false) }
    ensures direct { request_of (words_of (codes "begin direct")) ≡ asks (command.begin true) }
    ensures direct_plan { request_of (words_of (codes "rebalance direct")) ≡ asks (command.rebalance true) }
    ensures no_order { request_of (words_of (codes "rebalance x")) ≡ bad }
    ensures twice_direct { request_of (words_of (codes "begin direct direct")) ≡ bad }
    ensures no_name { request_of (words_of (codes "Begin direct")) ≡ bad }
    ensures two_texts { request_of (words_of (codes "create web images/web"))
        ≡ asks (command.create (codes "web") (codes "images/web")) }
    ensures three_texts { request_of (words_of (codes "adopt web b 2-3,6"))
        ≡ asks (command.adopt (codes "web") (codes "b") (codes "2-3,6")) }
    ensures forgets { request_of (words_of (codes "forget web")) ≡ asks (command.forget (codes "web")) }
    ensures forgets_none { request_of (words_of (codes "forget")) ≡ bad }
    ensures too_few { request_of (words_of (codes "create web")) ≡ bad }
    ensures too_many { request_of (words_of (codes "list web")) ≡ bad }
    ensures leading_zeros { request_of (words_of (codes "exit 007")) ≡ asks (command.exit 7) }
    ensures sign { request_of (words_of (codes "exit +7")) ≡ bad }
    ensures largest { request_of (words_of (codes "offline 4294967295")) ≡ asks (command.offline 4294967295) }
    ensures too_large { request_of (words_of (codes "offline 4294967296")) ≡ bad }
{}
