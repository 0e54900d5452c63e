ghost use Rattle.std.specs.Prelude.{◌≡◌, ◌+◌, ◌<◌, ◌≤◌, ◌++◌, [], All, Contains, IfOk, OnOk, IfSome, length, map, take};
ghost use Rattle.twins.specs.SpanCode.{span_of};

use cpu_set::CPU_LIMIT;
use std::alloc::{AllocError, Global};
use std::marker::Model;

/// CPUs from a first up to a last, which all have one weight to a row.
#[derive(Clone, Copy)]
pub(crate) struct Span {
    pub first: u16,
    pub last: u16,
    pub weight: u32,
}

/// What fills the room of ranges to come.
const UNUSED: Span = Span {
    first: 0,
    last: 0,
    weight: 0,
};

/// Ranges of CPUs in the order in which they came, in which many CPUs are looked up.
#[derive(Drop)]
pub(crate) struct SpanList {
    // The ranges, and behind them what longer lists left: room that was filled once is written over.
    items: Vec<Span>,
    count: usize,
    // For each CPU where its range stands. What a list before left here is seen by its range, which has not the CPU.
    hints: Vec<u16>,
}

impl Model for SpanList {
    ghost use Rattle.std.specs.Prelude.{◌≡◌, ◌≤◌, List, length, take};
    ghost use Rattle.cpu_set.specs.declared.TheConstants.{CPU_LIMIT};
    ghost use Rattle.twins.specs.SpanCode.{spans_code};
    ghost use Rattle.twins.specs.declared.span_list.Span.{Span};

    ghost Value = { List Span };

    ghost coded = { spans_code };

    ghost view = { λ a. take a.count a.items.items };

    ghost invariant = { λ a. (a.count ≤ length a.items.items) × (length a.hints.items ≡ CPU_LIMIT) };
}

impl SpanList {
    /// No ranges.
    pub(crate) fn new(alloc: Global) -> Result<SpanList, AllocError>
        ensures { IfOk result (λ list. list ≡ []) }
    {
        let hints = vec![in alloc; 0u16; CPU_LIMIT as usize]?;
        Ok(SpanList {
            items: Vec::new(alloc),
            count: 0,
            hints,
        })
    }

    /// Takes all ranges out. Their room stays.
    pub(crate) fn clear(&mut self)
        ensures { self.new ≡ [] }
    {
        self.count = 0;
    }

    /// Adds ranges of one weight behind the others. O(r + c) of its r ranges with c CPUs.
    ///
    /// # Errors
    /// An allocation failure.
    // Inlined: as a call it takes some 5 instructions more for each offer.
    #[inline(always)]
    pub(crate) fn add(&mut self, ranges: &[(u16, u16)], weight: u32) -> Result<(), AllocError>
        requires { All (λ r. r.1 < CPU_LIMIT) ranges.now }
        ensures { OnOk result (self.new ≡ self.old ++ map (span_of weight) ranges.now) }
    {
        let upto = self.count + ranges.len();
        if self.items.len() < upto {
            self.items.resize(upto, UNUSED)?;
        }
        write(&mut self.items, &mut self.hints, ranges, weight, self.count);
        self.count = upto;
        Ok(())
    }

    /// The range that has the CPU, as far as one is known.
    pub(crate) fn find(&self, cpu: u16) -> Option<Span>
        ensures has { IfSome result (λ span. (span.first ≤ cpu) × (cpu ≤ span.last)) }
        ensures listed { IfSome result (λ span. Contains self.now span) }
    {
        let hint = *self.hints.get(cpu as usize)?;
        if hint as usize >= self.count {
            return None;
        }
        let span = self.items[hint as usize];
        if span.first <= cpu && cpu <= span.last {
            Some(span)
        } else {
            None
        }
    }
}

/// Writes ranges of one weight from a place on, and notes at their CPUs where they stand.
fn write(items: &mut [Span], hints: &mut [u16], ranges: &[(u16, u16)], weight: u32, from: usize)
    requires room { from + length ranges.now ≤ length items.old }
    requires hints { length hints.old ≡ CPU_LIMIT }
    requires below { All (λ r. r.1 < CPU_LIMIT) ranges.now }
    ensures { take (from + length ranges.now) items.new ≡ take from items.old ++ map (span_of weight) ranges.now }
{
    for (k, range) in ranges.iter().enumerate() {
        let (first, last) = *range;
        let place = from + k;
        items[place] = Span {
            first,
            last,
            weight,
        };
        note(hints, first, last, place);
    }
}

/// Notes at the CPUs of a range where it stands. Of a place that is no `u16` the low bits are noted.
fn note(hints: &mut [u16], first: u16, last: u16, place: usize)
    requires { last < length hints.old }
    ensures { length hints.new ≡ length hints.old }
{
    let hint = (place & u16::MAX as usize) as u16;
    if first == last {
        hints[last as usize] = hint;
        return;
    }
    if first < last {
        for one in &mut hints[first as usize..last as usize + 1] {
            *one = hint;
        }
    }
}
