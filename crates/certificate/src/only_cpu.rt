//! Ranges of one CPU, for which no set is made.
ghost use Rattle.std.specs.Prelude.{◌≡◌, ℕ, ◌<◌, ◌==◌, All, IfSome};
ghost use Rattle.cpu_set.specs.Members.{IsCpu};
ghost use Rattle.cpu_set.specs.Ranges.{in_ranges};

use cpu_set::CPU_LIMIT;

/// The CPU of the ranges, where they are one range of one CPU.
pub(crate) fn only_cpu(ranges: &[(u16, u16)]) -> Option<u16>
    requires { All (λ r. r.1 < CPU_LIMIT) ranges.now }
    ensures alone { IfSome result (λ cpu. (q : ℕ) → in_ranges ranges.now q ≡ (q == cpu)) }
    ensures in_range { IfSome result (λ cpu. IsCpu cpu) }
{
    if ranges.len() != 1 {
        return None;
    }
    let (first, last) = ranges[0];
    if first == last { Some(first) } else { None }
}
