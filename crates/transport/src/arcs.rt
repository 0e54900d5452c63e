//! A row's classes by weight, made as far as searches come to them.
ghost use Rattle.std.specs.Prelude.{◌≡◌, ◌↔◌, ℕ, ◌+◌, ◌<◌, ◌≤◌, ◌⊎◌, ◌||◌, ◌==◌, false, IsTrue, Option, None, List};
ghost use Rattle.std.specs.Prelude.{length, MatchOption, IfOk, OnOk};
ghost use Rattle.std.specs.FinSet as set;
ghost use Rattle.cpu_set.specs.Members.{IsCpu};
ghost use Rattle.transport.specs.Blocks.{InBlocks, AreBlocks, AreWeightsAdded};
ghost use Rattle.transport.specs.Numbers.{number};
ghost use Rattle.transport.specs.Scans.{arc_at, AreRising, IsPast};
ghost use Rattle.certificate.specs.declared.rows.Offer.{Offer};
ghost use Rattle.transport.specs.declared.arcs.WeightedOffer.{WeightedOffer};
ghost use Rattle.transport.specs.SortedArcs.{IsSortedArcs, IsNewSortedArcs, IsFoundFreeEnd, CanOpen, IsOpening};
ghost use Rattle.transport.specs.Sought.{IsFurther};
ghost use Rattle.transport.specs.Orders.{weighted_at, weighted_in, AreAllWeighted, IsOrder};

use crate::Representatives;
use certificate::{Offer, Offers};
use cpu_set::WordSet;
use std::alloc::{AllocError, Global};

/// For how many arcs there is room at first, at most.
const FIRST_ARCS: usize = 64;

/// Arcs are put in blocks after so many scans, as a mean: to make them takes longer than to look at arcs once or twice.
const OFTEN: usize = 8;

/// A scan that comes to the last arc counts for so many of those that end at an earlier one.
const LAST_SEEN: usize = 4;

/// They are where one of so many or more lies in one block with the arc before. A block of one class takes longer than
/// its arc.
const FEW_JOINED: usize = 4;

/// They are in the first scan that comes to the last of so many arcs or more, where all lie so but for one of so many.
const NEARLY_ALL: usize = 32;

/// A class at its weight in a row.
#[derive(Clone, Copy, Debug)]
pub(crate) struct Arc {
    pub(crate) weight: u32,
    pub(crate) class: usize,
}

/// Classes that follow each other in a row's arcs, at one weight, by their first CPUs, which lie together.
///
/// Most of the classes that a scan comes to are taken up already. By blocks they are passed over many at a time.
#[derive(Debug, Drop)]
pub(crate) struct Block {
    pub(crate) weight: u32,
    pub(crate) firsts: WordSet,
}

/// A row's offers in rising weight, the classes of those that are opened, and how far these are full. The first ones
/// are in blocks too, as far as a scan has come where blocks spare looks.
#[derive(Debug, Drop)]
pub(crate) struct SortedArcs {
    pub(crate) order: OfferOrder,
    pub(crate) opened: usize,
    pub(crate) arcs: Vec<Arc>,
    pub(crate) blocks: Vec<Block>,
    pub(crate) blocked: usize,
    pub(crate) cursor: usize,
    /// How many looks at arcs that are in no block scans may have taken, since some were put in blocks.
    pub(crate) looks: usize,
    /// So many of the arcs, or more, lie in one block with the arc before.
    pub(crate) joined: usize,
}

impl SortedArcs {
    /// A row's offers in rising weight, none of them opened.
    pub(crate) fn new(alloc: Global, offers: &Offers) -> Result<SortedArcs, AllocError>
        ensures { IfOk result (IsNewSortedArcs offers.now) }
    {
        let order = OfferOrder::new(alloc, offers)?;
        let arcs = Vec::with_capacity(alloc, offers.len().min(FIRST_ARCS))?;
        Ok(SortedArcs {
            order,
            opened: 0,
            arcs,
            blocks: Vec::new(alloc),
            blocked: 0,
            cursor: 0,
            looks: 0,
            joined: 0,
        })
    }

    /// The nearest class with a free CPU whose weight is below the limit.
    pub(crate) fn nearest_free_class(
        &mut self,
        offers: &Offers,
        firsts: &Representatives,
        residual: &[u32],
        limit: Option<u64>,
    ) -> Result<Option<Arc>, AllocError>
        requires { (ws : ℕ → Option ℕ) × IsSortedArcs ws offers.now firsts.now residual.now self.old }
        ensures sorted_arcs { OnOk result ((ws : ℕ → Option ℕ)
            → IsSortedArcs ws offers.now firsts.now residual.now self.old
            → IsSortedArcs ws offers.now firsts.now residual.now self.new) }
        ensures found { IfOk result (λ found. (ws : ℕ → Option ℕ)
            → IsSortedArcs ws offers.now firsts.now residual.now self.old
            → IsFoundFreeEnd ws residual.now limit self.new found) }
        ensures further { OnOk result (IsFurther self.old self.new) }
    {
        loop {
            self.cursor = skip_full(&self.arcs, self.cursor, residual, limit);
            if self.cursor < self.arcs.len() {
                let arc = self.arcs[self.cursor];
                return Ok(arc.below(limit));
            }
            if self.opened == offers.len() {
                return Ok(None);
            }
            let next = self.order.weighted_offer(offers, self.opened);
            if is_past(limit, next.weight as u64) {
                return Ok(None);
            }
            self.open(offers, firsts)?;
        }
    }

    /// Opens the next offer: its classes are arcs from now on.
    fn open(&mut self, offers: &Offers, firsts: &Representatives) -> Result<(), AllocError>
        requires more { self.old.opened < length offers.now }
        requires sorted_arcs { (ws : ℕ → Option ℕ) × (residual : List ℕ)
            × IsSortedArcs ws offers.now firsts.now residual self.old }
        ensures sorted_arcs { OnOk result ((ws : ℕ → Option ℕ) (residual : List ℕ)
            → IsSortedArcs ws offers.now firsts.now residual self.old
            → IsSortedArcs ws offers.now firsts.now residual self.new) }
        ensures opened { OnOk result (self.new.opened ≡ self.old.opened + 1) }
        ensures further { OnOk result (IsFurther self.old self.new) }
    {
        prove!(self.opened < offers.len());
        let weighted_offer = self.order.weighted_offer(offers, self.opened);
        let offer = offers.offer(weighted_offer.offer);
        let before = self.arcs.len();
        push_arcs(&mut self.arcs, &offer, firsts, weighted_offer.weight)?;
        self.joined = self
            .joined
            .saturating_add(joined_from(&self.arcs, firsts, before));
        self.opened += 1;
        Ok(())
    }

    /// Adds the arcs before the cursor to the blocks, but for those that are there already, where scans are spared
    /// looks by it: at once where nearly all of the row's arcs lie in one block with the arc before, else where these
    /// are scanned again, and never where few do.
    ///
    /// Only a scan reads blocks: a row from which no more than the free end is sought has none.
    pub(crate) fn block_arcs(
        &mut self,
        firsts: &Representatives,
        limit: Option<u64>,
    ) -> Result<(), AllocError>
        requires sorted_arcs { (ws : ℕ → Option ℕ) × (offers : List Offer) × (residual : List ℕ)
            × IsSortedArcs ws offers firsts.now residual self.old }
        ensures sorted_arcs { OnOk result ((ws : ℕ → Option ℕ) (offers : List Offer) (residual : List ℕ)
            → IsSortedArcs ws offers firsts.now residual self.old
            → IsSortedArcs ws offers firsts.now residual self.new) }
        ensures arcs { OnOk result (self.new.arcs ≡ self.old.arcs) }
        ensures cursor { OnOk result (self.new.cursor ≡ self.old.cursor) }
    {
        // The first test alone decides in each scan of a row whose CPUs all weigh something else.
        if self.joined == 0 || self.joined.saturating_mul(FEW_JOINED) < self.arcs.len() {
            return Ok(());
        }
        let left = self.cursor.saturating_sub(self.blocked);
        if left == 0 {
            return Ok(());
        }
        let to_last = comes_to_last(&self.arcs, self.cursor, limit);
        let scans = if to_last { LAST_SEEN } else { 1 };
        self.looks = self.looks.saturating_add(left.saturating_mul(scans));
        let at_once = to_last && left >= NEARLY_ALL && self.are_nearly_all_joined();
        if !at_once && self.looks / OFTEN < left {
            return Ok(());
        }
        add_arcs(
            &mut self.blocks,
            &self.arcs,
            firsts,
            self.blocked,
            self.cursor,
        )?;
        self.blocked = self.cursor;
        self.looks = 0;
        Ok(())
    }

    /// Whether all of the arcs but for one of so many lie in one block with the arc before.
    fn are_nearly_all_joined(&self) -> bool {
        let apart = self.arcs.len().saturating_sub(self.joined);
        apart <= self.arcs.len() / NEARLY_ALL
    }
}

/// Whether a scan up to a limit comes to the last of the first arcs.
fn comes_to_last(arcs: &[Arc], upto: usize, limit: Option<u64>) -> bool {
    match arcs.get(upto.saturating_sub(1)) {
        Some(arc) => !is_past(limit, arc.weight as u64),
        None => false,
    }
}

/// Adds the classes of an offer, at its weight, in the order of their first CPUs.
fn push_arcs(
    arcs: &mut Vec<Arc>,
    offer: &Offer,
    firsts: &Representatives,
    weight: u32,
) -> Result<(), AllocError>
    ensures { OnOk result ((ws : ℕ → Option ℕ) (offers : List Offer) (weighted : List WeightedOffer) (opened : ℕ)
        → CanOpen ws offers firsts.now weighted opened offer.now weight arcs.old.items
        → IsOpening ws offers firsts.now weighted opened arcs.old.items arcs.new.items None) }
{
    let there = firsts.among(&offer.cpus);
    let mut next = there.first();
    while let Some(cpu) = next {
        let class = firsts.class_of(cpu);
        arcs.push(Arc { weight, class })?;
        next = there.next_after(cpu);
    }
    Ok(())
}

/// How many of an offer's arcs, the last ones from this place on, lie in one block with the one before, at least: all
/// but one for each word of 64 that their first CPUs span.
fn joined_from(arcs: &[Arc], firsts: &Representatives, from: usize) -> usize {
    if arcs.len() <= from.saturating_add(1) {
        return 0;
    }
    let last = word_of(firsts, arcs[arcs.len() - 1]);
    let words = last.saturating_sub(word_of(firsts, arcs[from])) as usize + 1;
    (arcs.len() - from).saturating_sub(words)
}

/// The word of 64 that the first CPU of an arc's class lies in.
fn word_of(firsts: &Representatives, arc: Arc) -> u16 {
    firsts.first(arc.class).unwrap_or(0) / 64
}

/// Adds the classes of the arcs from one place up to another to the blocks of the arcs before them.
fn add_arcs(
    blocks: &mut Vec<Block>,
    arcs: &[Arc],
    firsts: &Representatives,
    from: usize,
    upto: usize,
) -> Result<(), AllocError>
    requires from { from ≤ upto }
    requires upto { upto ≤ length arcs.now }
    requires rising { AreRising arcs.now }
    requires classes { (i : ℕ) → i < length arcs.now → (arc_at arcs.now i).class < length firsts.now }
    requires blocks { AreBlocks firsts.now arcs.now from blocks.old.items }
    ensures { OnOk result (AreBlocks firsts.now arcs.now upto blocks.new.items) }
{
    for at in from..upto {
        let arc = arcs[at];
        if let Some(cpu) = firsts.first(arc.class) {
            add_to_blocks(blocks, arc.weight, cpu)?;
        }
    }
    Ok(())
}

/// Adds a CPU at a weight: to the last block, where it lies behind the CPUs there, else as a block of its own.
fn add_to_blocks(blocks: &mut Vec<Block>, weight: u32, cpu: u16) -> Result<(), AllocError>
    requires { IsCpu cpu }
    ensures sound { OnOk result ((c w : ℕ) → InBlocks blocks.new.items c w → InBlocks blocks.old.items c w
        ⊎ ((c ≡ cpu) × (w ≡ weight))) }
    ensures kept { OnOk result ((c w : ℕ) → InBlocks blocks.old.items c w → InBlocks blocks.new.items c w) }
    ensures added { OnOk result (InBlocks blocks.new.items cpu weight) }
    ensures weights { OnOk result (AreWeightsAdded blocks.old.items blocks.new.items weight) }
{
    if extend_last(blocks, weight, cpu) {
        return Ok(());
    }
    let firsts = WordSet::of(cpu);
    blocks.push(Block { weight, firsts })?;
    Ok(())
}

/// Adds a CPU to the last block, if that is of this weight and the CPU lies behind those there; says whether it was
/// added.
fn extend_last(blocks: &mut [Block], weight: u32, cpu: u16) -> bool
    requires { IsCpu cpu }
    ensures sound { IsTrue result → (c w : ℕ) → InBlocks blocks.new c w → InBlocks blocks.old c w
        ⊎ ((c ≡ cpu) × (w ≡ weight)) }
    ensures kept { IsTrue result → (c w : ℕ) → InBlocks blocks.old c w → InBlocks blocks.new c w }
    ensures added { IsTrue result → InBlocks blocks.new cpu weight }
    ensures weights { IsTrue result → AreWeightsAdded blocks.old blocks.new weight }
    ensures same { result ≡ false → blocks.new ≡ blocks.old }
{
    if blocks.len() == 0 {
        return false;
    }
    let last = blocks.len() - 1;
    extend(&mut blocks[last], weight, cpu)
}

/// Adds a CPU to a block, if that is of this weight and the CPU lies behind those there; says whether it was added.
fn extend(block: &mut Block, weight: u32, cpu: u16) -> bool
    requires { IsCpu cpu }
    ensures firsts { IsTrue result → (q : ℕ) → set.contains block.new.firsts q
        ≡ (set.contains block.old.firsts q || (q == cpu)) }
    ensures weight { IsTrue result → (block.old.weight ≡ weight) × (block.new.weight ≡ weight) }
    ensures same { result ≡ false → block.new ≡ block.old }
{
    block.weight == weight && block.firsts.extend(cpu)
}

impl Arc {
    /// The arc, if its weight is below the limit.
    fn below(self, limit: Option<u64>) -> Option<Arc>
        ensures { MatchOption result (IsPast limit self.weight) (λ arc. (arc ≡ self) × (IsPast limit self.weight → ⊥)) }
    {
        if is_past(limit, self.weight as u64) {
            None
        } else {
            Some(self)
        }
    }
}

/// The first place from this one on whose class has a free CPU, or whose weight is at the limit.
fn skip_full(arcs: &[Arc], from: usize, residual: &[u32], limit: Option<u64>) -> usize
    requires from { from ≤ length arcs.now }
    requires classes { (i : ℕ) → i < length arcs.now → (arc_at arcs.now i).class < length residual.now }
    requires full { (i : ℕ) → i < from → number residual.now (arc_at arcs.now i).class ≡ 0 }
    ensures within { result ≤ length arcs.now }
    ensures forward { from ≤ result }
    ensures full { (i : ℕ) → i < result → number residual.now (arc_at arcs.now i).class ≡ 0 }
    ensures stop { result < length arcs.now → IsPast limit (arc_at arcs.now result).weight
        ⊎ (0 < number residual.now (arc_at arcs.now result).class) }
{
    for at in from..arcs.len() {
        let arc = arcs[at];
        if is_past(limit, arc.weight as u64) || residual[arc.class] > 0 {
            return at;
        }
    }
    arcs.len()
}

/// Whether a weight is at the limit or above it.
pub(crate) fn is_past(limit: Option<u64>, weight: u64) -> bool
    ensures { IsTrue result ↔ IsPast limit weight }
{
    match limit {
        Some(limit) => weight >= limit,
        None => false,
    }
}

/// An offer of a row by its weight.
#[derive(Clone, Copy, Debug)]
pub(crate) struct WeightedOffer {
    pub(crate) weight: u32,
    pub(crate) offer: usize,
}

/// A row's offers by rising weight.
#[derive(Debug, Drop)]
pub(crate) enum OfferOrder {
    /// As they stand.
    AsOffered,
    ByWeight(Vec<WeightedOffer>),
}

impl OfferOrder {
    /// The order of these offers. Where each weighs more than the one before it, no list is made.
    pub(crate) fn new(alloc: Global, offers: &Offers) -> Result<OfferOrder, AllocError>
        ensures { IfOk result (IsOrder offers.now) }
    {
        if offers.are_rising() {
            return Ok(OfferOrder::AsOffered);
        }
        let mut weighted = weighted_offers(alloc, offers)?;
        weighted.sort_by_key(|weighted_offer| weighted_offer.weight)?;
        Ok(OfferOrder::ByWeight(weighted))
    }

    /// The offer at a place of the order.
    pub(crate) fn weighted_offer(&self, offers: &Offers, index: usize) -> WeightedOffer
        requires order { IsOrder offers.now self.now }
        requires there { index < length offers.now }
        ensures { result ≡ weighted_at (weighted_in offers.now self.now) index }
    {
        match self {
            OfferOrder::AsOffered => WeightedOffer {
                weight: offers.weight(index),
                offer: index,
            },
            OfferOrder::ByWeight(weighted) => weighted[index],
        }
    }
}

/// Each offer at its weight.
fn weighted_offers(alloc: Global, offers: &Offers) -> Result<Vec<WeightedOffer>, AllocError>
    ensures all { IfOk result (λ weighted. AreAllWeighted offers.now weighted.items (length offers.now)) }
    ensures long { IfOk result (λ weighted. length weighted.items ≡ length offers.now) }
{
    let mut weighted = Vec::with_capacity(alloc, offers.len())?;
    for at in 0..offers.len() {
        weighted.push(WeightedOffer {
            weight: offers.weight(at),
            offer: at,
        })?;
    }
    Ok(weighted)
}
