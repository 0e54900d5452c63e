//! How sets, their least CPUs and their counts hang together: laws over the definitions alone. Nothing here runs.
ghost use Rattle.std.specs.Prelude.{◌≡◌, [], ◌∷◌};
ghost use Rattle.std.specs.FinSet as set;
ghost use Rattle.cpu_set.specs.LeastLaws.{LeastIsLeast, LeastPasses, NoneWhereNone, LeastIsFirst, LeastOfDifference};
ghost use Rattle.cpu_set.specs.LeastLaws.{LeastOfBoth};
ghost use Rattle.cpu_set.specs.Members.{members};
ghost use Rattle.cpu_set.specs.Ranges.{ranges_of};
ghost use Rattle.cpu_set.specs.SetLaws.{EmptyWhereNone, DisjointWhereMeetIsEmpty, SubsetWhereNoneIsLeft};
ghost use Rattle.cpu_set.specs.SetLaws.{MembersAreCounted};

use crate::CPU_LIMIT;

/// `least_that` is the least CPU that passes, and none if none passes.
pub fn least_cpus()
    ensures is_least { LeastIsLeast }
    ensures passes { LeastPasses }
    ensures none { NoneWhereNone }
{}

/// Of the CPUs of a set `least_that` is what `first` returns, so too of a difference and of what
/// two sets share.
pub fn least_members()
    ensures first { LeastIsFirst }
    ensures difference { LeastOfDifference }
    ensures both { LeastOfBoth }
{}

/// What sets share, leave and count, in words of the sets alone.
pub fn set_laws()
    ensures empty { EmptyWhereNone }
    ensures disjoint { DisjointWhereMeetIsEmpty }
    ensures subset { SubsetWhereNoneIsLeft }
    ensures counted { MembersAreCounted }
{}

/// Worked rows: the definitions, evaluated.
pub fn worked()
    ensures members { members (set.from_list (5 ∷ 1 ∷ 2 ∷ 1 ∷ [])) ≡ 1 ∷ 2 ∷ 5 ∷ [] }
    ensures ranges { ranges_of (0 ∷ 1 ∷ 2 ∷ 7 ∷ []) ≡ (0, 2) ∷ (7, 7) ∷ [] }
    ensures no_range { ranges_of [] ≡ [] }
{}

/// Numbers are below 4,096.
pub fn the_limits()
    ensures cpus { CPU_LIMIT ≡ 4_096 }
{}
