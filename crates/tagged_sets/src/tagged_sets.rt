ghost use Rattle.std.specs.Prelude.{◌≡◌, ◌↔◌, ℕ, ◌<◌, ◌≤◌, ◌++◌, [], ◌∷◌, All, IsTrue, length};
ghost use Rattle.std.specs.Prelude.{◌&&◌, ◌||◌, nat_le, IfOk, OnOk, OnErr, IfSome};
ghost use Rattle.std.specs.Prelude.{slice_index_or, slice_range};
ghost use Rattle.std.specs.FinSet as set;
ghost use Rattle.cpu_set.specs.Ids.{Ids};
ghost use Rattle.cpu_set.specs.Members.{InRange};
ghost use Rattle.tagged_sets.specs.CutOut.{left_of};
ghost use Rattle.tagged_sets.specs.Tagged.{ranges_of_set, set_of_ranges, start_at, in_any, IsOfSet, MayKeep};
ghost use Rattle.cpu_set.specs.Ranges.{in_ranges};

use crate::Tag;
use crate::cuts::add_without;
use cpu_set::{CPU_LIMIT, IdSet};
use std::alloc::{AllocError, Global};
use std::marker::Model;

/// A set of more ranges than this is kept as a set beside them, since it is copied faster than it is made of them.
const WIDE: usize = 64;

/// Sets of CPUs in the order in which they came, each with a tag.
///
/// A set takes a head and its ranges, not a bit for each CPU that there may be. Only one of many ranges, as on a
/// machine whose CPUs are numbered in turn over its nodes, is kept as a set beside them.
#[derive(Debug, Drop)]
pub struct TaggedSets<T: Copy> {
    heads: Vec<Head<T>>,
    // The ranges of all sets, rising within each set and as long as possible.
    ranges: Vec<(u16, u16)>,
    // Sets that are kept beside their ranges, in the order of their places.
    wide: Vec<WideSet>,
}

/// A set's tag, and where its ranges end. They begin where those of the set before end.
#[derive(Clone, Copy, Debug)]
struct Head<T: Copy> {
    tag: T,
    end: usize,
}

/// A set of many ranges, and its place among all sets.
#[derive(Clone, Copy, Debug)]
struct WideSet {
    at: usize,
    cpus: IdSet,
}

impl<T: Copy> Model for TaggedSets<T> {
    ghost use Rattle.std.specs.Prelude.{List};
    ghost use Rattle.cpu_set.specs.Ids.{Ids, ids_code};
    ghost use Rattle.std.specs.Coded.{coded×, coded_list};
    ghost use Rattle.tagged_sets.specs.Tagged.{tagged, AreKept, AreWide};

    ghost Value = { List (T × Ids) };

    ghost coded = { coded_list (coded× T.code ids_code) };

    ghost view = { λ a. tagged a.ranges.items 0 a.heads.items };

    ghost invariant = { λ a. AreKept a.ranges.items 0 a.heads.items
        × AreWide a.wide.items (tagged a.ranges.items 0 a.heads.items) };
}

impl<T: Copy> TaggedSets<T> {
    /// No sets. Allocates nothing.
    pub fn new(alloc: Global) -> TaggedSets<T>
        ensures { result ≡ [] }
    {
        TaggedSets {
            heads: Vec::new(alloc),
            ranges: Vec::new(alloc),
            wide: Vec::new(alloc),
        }
    }

    /// Adds a set with its tag behind the others.
    ///
    /// # Errors
    /// An allocation failure, which changes nothing.
    pub fn push(&mut self, tag: T, cpus: &IdSet) -> Result<(), AllocError>
        ensures ok { OnOk result (self.new ≡ self.old ++ (tag, cpus.now) ∷ []) }
        ensures err { OnErr result (self.new ≡ self.old) }
    {
        self.heads.reserve(1)?;
        let place = self.heads.len();
        add_set(&mut self.ranges, &mut self.wide, place, cpus)?;
        let end = self.ranges.len();
        self.heads.push(Head { tag, end })?;
        Ok(())
    }

    /// Adds a set of another list with a tag of its own behind the others: its ranges are copied as they stand, with
    /// the set where it is kept, and no set is made of them. O(r) of its r ranges.
    ///
    /// # Errors
    /// An allocation failure, which changes nothing.
    pub fn push_from(&mut self, tag: T, other: &TaggedSets<T>, at: usize) -> Result<(), AllocError>
        requires { at < length other.now }
        ensures ok { (d : T × Ids) → OnOk result (self.new ≡ self.old ++ (tag, (slice_index_or other.now at d).1)
            ∷ []) }
        ensures err { OnErr result (self.new ≡ self.old) }
    {
        let more = other.ranges(at);
        self.ranges.reserve(more.len())?;
        if self.heads.reserve(1).is_err() {
            return Err(AllocError);
        }
        let place = self.heads.len();
        keep_same(&mut self.wide, place, other.wide(at))?;
        let head = Head {
            tag,
            end: self.ranges.len() + more.len(),
        };
        self.heads.push(head)?;
        self.ranges.extend_from_slice(more)?;
        Ok(())
    }

    /// Adds the set of these ranges with its tag behind the others: they are copied as they stand, and a set is made of
    /// them only where they are many. O(r) of r ranges.
    ///
    /// # Errors
    /// An allocation failure, which changes nothing.
    pub fn push_ranges(&mut self, tag: T, ranges: &[(u16, u16)]) -> Result<(), AllocError>
        requires { IsOfSet ranges.now }
        ensures ok { OnOk result (self.new ≡ self.old ++ (tag, set_of_ranges ranges.now) ∷ []) }
        ensures err { OnErr result (self.new ≡ self.old) }
    {
        self.ranges.reserve(ranges.len())?;
        if self.heads.reserve(1).is_err() {
            return Err(AllocError);
        }
        let place = self.heads.len();
        keep_made(&mut self.wide, place, ranges)?;
        let head = Head {
            tag,
            end: self.ranges.len() + ranges.len(),
        };
        self.heads.push(head)?;
        self.ranges.extend_from_slice(ranges)?;
        Ok(())
    }

    /// Adds a set of another list, less the CPUs of `without`, with a tag of its own behind the others: no set is made
    /// of ranges. Those that have none of these CPUs are copied as they stand, and the others are cut. Where the set is
    /// kept and many ranges are left, what is left of it is kept too. O(r + c + w) of its r ranges, where c are cut out
    /// of them and a set has w words.
    ///
    /// # Errors
    /// An allocation failure, which changes nothing.
    pub fn push_without(
        &mut self,
        tag: T,
        other: &TaggedSets<T>,
        at: usize,
        without: &IdSet,
    ) -> Result<(), AllocError>
        requires { at < length other.now }
        ensures ok { (d : T × Ids) → OnOk result (self.new ≡ self.old
            ++ (tag, set.difference (slice_index_or other.now at d).1 without.now) ∷ []) }
        ensures err { OnErr result (self.new ≡ self.old) }
    {
        if self.heads.reserve(1).is_err() {
            return Err(AllocError);
        }
        let others = other.ranges(at);
        let kept = other.wide(at);
        let place = self.heads.len();
        add_left(
            &mut self.ranges,
            &mut self.wide,
            place,
            others,
            kept,
            without,
        )?;
        let head = Head {
            tag,
            end: self.ranges.len(),
        };
        self.heads.push(head)?;
        Ok(())
    }

    /// The same sets once more.
    ///
    /// # Errors
    /// An allocation failure.
    pub fn copy(&self, alloc: Global) -> Result<TaggedSets<T>, AllocError>
        ensures { IfOk result (λ same. same ≡ self.now) }
    {
        let heads = Vec::from_slice(alloc, self.heads.as_slice())?;
        let ranges = Vec::from_slice(alloc, self.ranges.as_slice())?;
        let wide = Vec::from_slice(alloc, self.wide.as_slice())?;
        Ok(TaggedSets {
            heads,
            ranges,
            wide,
        })
    }

    /// How many sets there are.
    pub fn len(&self) -> usize
        ensures { result ≡ length self.now }
    {
        self.heads.len()
    }

    /// The tag of a set.
    pub fn tag(&self, at: usize) -> T
        requires { at < length self.now }
        ensures { (d : T × Ids) → result ≡ (slice_index_or self.now at d).0 }
    {
        self.heads[at].tag
    }

    /// The ranges of a set.
    pub fn ranges(&self, at: usize) -> &[(u16, u16)]
        requires { at < length self.now }
        ensures ranges { (d : T × Ids) → result.now ≡ ranges_of_set (slice_index_or self.now at d).1 }
        ensures members { (d : T × Ids) (q : ℕ) → in_ranges result.now q
            ≡ set.contains (slice_index_or self.now at d).1 q }
        ensures in_range { (d : T × Ids) → InRange (slice_index_or self.now at d).1 }
        ensures below { All (λ r. r.1 < CPU_LIMIT) result.now }
    {
        let start = start_of(self.heads.as_slice(), at);
        let end = self.heads[at].end;
        part_of(self.ranges.as_slice(), start, end)
    }

    /// A set, where it is kept beside its ranges, as most sets of more than 64 ranges are. [`TaggedSets::cpus`] makes
    /// those that are not. O(log n) of n sets.
    pub fn wide(&self, at: usize) -> Option<&IdSet>
        ensures { (d : T × Ids) → IfSome result (λ s. s.now ≡ (slice_index_or self.now at d).1) }
    {
        if self.wide.is_empty() {
            return None;
        }
        let place = place_of(self.wide.as_slice(), self.heads.len(), at);
        if place >= self.wide.len() {
            return None;
        }
        let kept = &self.wide[place];
        if kept.at == at {
            Some(&kept.cpus)
        } else {
            None
        }
    }

    /// Whether a set is kept beside its ranges. Where none is, [`TaggedSets::wide`] has nothing to lend.
    pub fn has_wide(&self) -> bool {
        !self.wide.is_empty()
    }

    /// A set: as it is kept, or made of its ranges.
    pub fn cpus(&self, at: usize) -> IdSet
        requires { at < length self.now }
        ensures { (d : T × Ids) → result ≡ (slice_index_or self.now at d).1 }
    {
        if self.wide.is_empty() {
            return set_of(self.ranges(at));
        }
        kept_or_made(self, at)
    }

    /// The CPUs that are in one of the sets.
    pub fn all(&self) -> IdSet
        ensures { (n : ℕ) → set.contains result n ≡ in_any self.now n }
    {
        if self.wide.is_empty() {
            return set_of(self.ranges.as_slice());
        }
        union_of(self)
    }
}

impl<T: Tag> TaggedSets<T> {
    /// Whether both have the same sets with the same tags in the same order.
    pub fn is_same(&self, other: &TaggedSets<T>) -> bool
        ensures { IsTrue result ↔ (self.now ≡ other.now) }
    {
        self.ranges.as_slice() == other.ranges.as_slice()
            && are_same(self.heads.as_slice(), other.heads.as_slice())
    }
}

/// Whether the tags and the ends are the same.
fn are_same<T: Tag>(some: &[Head<T>], others: &[Head<T>]) -> bool
    ensures { IsTrue result ↔ (some.now ≡ others.now) }
{
    if some.len() != others.len() {
        return false;
    }
    for at in 0..some.len() {
        let one = &some[at];
        let other = &others[at];
        if one.end != other.end || !one.tag.is(other.tag) {
            return false;
        }
    }
    true
}

/// Where the ranges of a set begin.
fn start_of<T: Copy>(heads: &[Head<T>], at: usize) -> usize
    requires { at < length heads.now }
    ensures { result ≡ start_at 0 heads.now at }
{
    if at == 0 { 0 } else { heads[at - 1].end }
}

/// A set: as it is kept, or made of its ranges.
#[inline(never)]
fn kept_or_made<T: Copy>(sets: &TaggedSets<T>, at: usize) -> IdSet
    requires { at < length sets.now }
    ensures { (d : T × Ids) → result ≡ (slice_index_or sets.now at d).1 }
{
    match sets.wide(at) {
        Some(kept) => *kept,
        None => set_of(sets.ranges(at)),
    }
}

/// The ranges from one place up to another.
fn part_of(ranges: &[(u16, u16)], start: usize, end: usize) -> &[(u16, u16)]
    requires rising { start ≤ end }
    requires within { end ≤ length ranges.now }
    ensures { result.now ≡ slice_range ranges.now start end }
{
    &ranges[start..end]
}

/// The place in `wide` of the set at a place among all sets, if it is kept there. No more sets of few ranges stand
/// before it than there are of these, so it is sought among so many. Not inlined: most lists keep none.
#[inline(never)]
fn place_of(wide: &[WideSet], sets: usize, at: usize) -> usize {
    let narrow = sets.saturating_sub(wide.len());
    let mut from = at.saturating_sub(narrow);
    let mut to = at.min(wide.len());
    while from < to {
        let middle = from + (to - from) / 2;
        if wide[middle].at < at {
            from = middle + 1;
        } else {
            to = middle;
        }
    }
    from
}

/// The CPUs that are in one of the sets, one set after another.
fn union_of<T: Copy>(sets: &TaggedSets<T>) -> IdSet
    ensures { (n : ℕ) → set.contains result n ≡ in_any sets.now n }
{
    let mut all = IdSet::empty();
    let mut kept = 0;
    for at in 0..sets.len() {
        if add_one(&mut all, sets, at, kept) {
            kept += 1;
        }
    }
    all
}

/// Adds the CPUs of the set at a place: as it is kept, if it is the one at this place among those kept, or range by
/// range. Whether it was kept.
fn add_one<T: Copy>(all: &mut IdSet, sets: &TaggedSets<T>, at: usize, kept: usize) -> bool
    requires { at < length sets.now }
    ensures { (d : T × Ids) (n : ℕ) → set.contains all.new n
        ≡ (set.contains all.old n || set.contains (slice_index_or sets.now at d).1 n) }
{
    if kept < sets.wide.len() {
        let set = &sets.wide[kept];
        if set.at == at {
            *all = all.union(&set.cpus);
            return true;
        }
    }
    insert_all(all, sets.ranges(at));
    false
}

/// Adds the ranges of a set, and the set itself if they are many; an allocation failure changes nothing.
fn add_set(
    ranges: &mut Vec<(u16, u16)>,
    wide: &mut Vec<WideSet>,
    place: usize,
    cpus: &IdSet,
) -> Result<(), AllocError>
    ensures ok { OnOk result (ranges.new.items ≡ ranges.old.items ++ ranges_of_set cpus.now) }
    ensures kept { OnOk result (MayKeep wide.old.items wide.new.items place cpus.now) }
    ensures err { OnErr result (ranges.new.items ≡ ranges.old.items) }
    ensures not_kept { OnErr result (wide.new.items ≡ wide.old.items) }
    ensures in_range { InRange cpus.now }
{
    let start = ranges.len();
    add_ranges(ranges, cpus)?;
    let count = ranges.len().saturating_sub(start);
    if keep_wide(wide, place, count, cpus).is_err() {
        ranges.truncate(start);
        return Err(AllocError);
    }
    Ok(())
}

/// Adds the ranges of a set less the numbers of another, and the set that is left if the first is at hand and they are
/// many; an allocation failure changes nothing.
fn add_left(
    ranges: &mut Vec<(u16, u16)>,
    wide: &mut Vec<WideSet>,
    place: usize,
    more: &[(u16, u16)],
    kept: Option<&IdSet>,
    without: &IdSet,
) -> Result<(), AllocError>
    requires of_set { IsOfSet more.now }
    requires kept { IfSome kept (λ s. s.now ≡ set_of_ranges more.now) }
    ensures ok { OnOk result (ranges.new.items ≡ ranges.old.items ++ ranges_of_set (left_of more.now without.now)) }
    ensures kept { OnOk result (MayKeep wide.old.items wide.new.items place (left_of more.now without.now)) }
    ensures err { OnErr result (ranges.new.items ≡ ranges.old.items) }
    ensures not_kept { OnErr result (wide.new.items ≡ wide.old.items) }
{
    let start = ranges.len();
    add_without(ranges, more, without)?;
    let count = ranges.len().saturating_sub(start);
    if keep_left(wide, place, count, kept, without).is_err() {
        ranges.truncate(start);
        return Err(AllocError);
    }
    Ok(())
}

/// Keeps a set if its ranges are many.
fn keep_wide(
    wide: &mut Vec<WideSet>,
    place: usize,
    count: usize,
    cpus: &IdSet,
) -> Result<(), AllocError>
    ensures ok { OnOk result (MayKeep wide.old.items wide.new.items place cpus.now) }
    ensures err { OnErr result (wide.new.items ≡ wide.old.items) }
{
    if count <= WIDE {
        return Ok(());
    }
    wide.push(WideSet {
        at: place,
        cpus: *cpus,
    })?;
    Ok(())
}

/// Keeps a set that is at hand.
fn keep_same(wide: &mut Vec<WideSet>, place: usize, kept: Option<&IdSet>) -> Result<(), AllocError>
    ensures ok { (s : Ids) → IfSome kept.entry (λ k. k.now ≡ s)
        → OnOk result (MayKeep wide.old.items wide.new.items place s) }
    ensures err { OnErr result (wide.new.items ≡ wide.old.items) }
{
    match kept {
        Some(kept) => {
            let cpus = *kept;
            wide.push(WideSet { at: place, cpus })?;
            Ok(())
        }
        None => Ok(()),
    }
}

/// Keeps the set of these ranges if they are many.
fn keep_made(wide: &mut Vec<WideSet>, place: usize, ranges: &[(u16, u16)]) -> Result<(), AllocError>
    requires { IsOfSet ranges.now }
    ensures ok { OnOk result (MayKeep wide.old.items wide.new.items place (set_of_ranges ranges.now)) }
    ensures err { OnErr result (wide.new.items ≡ wide.old.items) }
{
    if ranges.len() <= WIDE {
        return Ok(());
    }
    keep_same(wide, place, Some(&set_of(ranges)))
}

/// Keeps what is left of a set that is at hand, if its ranges are many.
fn keep_left(
    wide: &mut Vec<WideSet>,
    place: usize,
    count: usize,
    kept: Option<&IdSet>,
    without: &IdSet,
) -> Result<(), AllocError>
    ensures ok { (s : Ids) → IfSome kept.entry (λ k. k.now ≡ s)
        → OnOk result (MayKeep wide.old.items wide.new.items place (set.difference s without.now)) }
    ensures err { OnErr result (wide.new.items ≡ wide.old.items) }
{
    match kept {
        Some(kept) => keep_wide(wide, place, count, &kept.minus(without)),
        None => Ok(()),
    }
}

/// Adds the ranges of a set, each up to the next number that the set lacks; an allocation failure changes nothing.
fn add_ranges(ranges: &mut Vec<(u16, u16)>, cpus: &IdSet) -> Result<(), AllocError>
    ensures ok { OnOk result (ranges.new.items ≡ ranges.old.items ++ ranges_of_set cpus.now) }
    ensures err { OnErr result (ranges.new.items ≡ ranges.old.items) }
    ensures in_range { InRange cpus.now }
{
    cpus.stays_below_the_limit();
    let before = ranges.len();
    let absent = cpus.complement();
    let mut next = cpus.first();
    while let Some(first) = next {
        let range = (first, absent.next_after(first).unwrap_or(CPU_LIMIT) - 1);
        if ranges.push(range).is_err() {
            ranges.truncate(before);
            return Err(AllocError);
        }
        next = cpus.next_after(range.1);
    }
    Ok(())
}

/// The set that has these ranges.
fn set_of(ranges: &[(u16, u16)]) -> IdSet
    requires { All (λ r. r.1 < CPU_LIMIT) ranges.now }
    ensures { (n : ℕ) → set.contains result n ≡ in_ranges ranges.now n }
{
    let mut cpus = IdSet::empty();
    for range in ranges {
        let (first, last) = *range;
        add_range(&mut cpus, first, last);
    }
    cpus
}

/// Adds the numbers of the ranges.
fn insert_all(cpus: &mut IdSet, ranges: &[(u16, u16)])
    requires { All (λ r. r.1 < CPU_LIMIT) ranges.now }
    ensures { (n : ℕ) → set.contains cpus.new n ≡ (set.contains cpus.old n || in_ranges ranges.now n) }
{
    for range in ranges {
        let (first, last) = *range;
        add_range(cpus, first, last);
    }
}

/// Adds the numbers of a range. A set takes one number in fewer steps than a range of one.
fn add_range(cpus: &mut IdSet, first: u16, last: u16)
    requires { last < CPU_LIMIT }
    ensures { (n : ℕ) → set.contains cpus.new n ≡ (set.contains cpus.old n || (nat_le first n && nat_le n last)) }
{
    if first == last {
        cpus.insert(first);
    } else {
        cpus.insert_range(first, last);
    }
}
