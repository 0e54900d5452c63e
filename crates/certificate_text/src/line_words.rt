//! The words of each kind of line, behind the one that names the kind.
ghost use Rattle.std.specs.Prelude.{◌≡◌, ℕ, List, [], ◌∷◌, MatchOption, IfOk, IfErr};
ghost use Rattle.cpu_set.specs.Ids.{Ids};
ghost use Rattle.certificate.specs.RowView.{RowView};
ghost use Rattle.certificate.specs.declared.price_lists.Price.{Price};
ghost use Rattle.certificate.specs.declared.weights.Weights.{Weights};
ghost use Rattle.faults.specs.declared.or_memory.OrMemory.TheVariants.{Memory};
ghost use Rattle.certificate_text.specs.Line.{words, AreRowWords, AreHoldWords, ArePriceWords, AreMovesWords, SayTotal};
ghost use Rattle.certificate_text.specs.OnBad.{OnBad};

use crate::bad_line::BadLine;
use crate::decimal::{read_below, read_u32, read_u64};
use crate::id::{is_id, read_id};
use crate::list_word::read_cpus;
use crate::offer::read_offers;
use crate::split_once::split_once;
use crate::word_pairs::{split_pair, split_triple};
use certificate::{Cost, MOVE_SCALE, Offers, Price, Row, Weights};
use cpu_set::IdSet;
use faults::OrMemory;
use std::alloc::Global;

/// ID DEMAND, and offers. It allocates only for words that spell a row.
pub fn read_row(alloc: Global, text: &[u8]) -> Result<Row, OrMemory<BadLine>>
    ensures ok { IfOk result (λ row. AreRowWords (words text.now) row) }
    ensures bad { OnBad result ((row : RowView) → AreRowWords (words text.now) row → ⊥) }
    ensures memory { IfErr result (λ fault. fault ≡ Memory → (row : RowView) × AreRowWords (words text.now) row) }
{
    let Some((id, rest)) = split_once(text, b' ') else {
        return Err(OrMemory::Fault(BadLine));
    };
    match split_once(rest, b' ') {
        Some((demand, offers)) => {
            let demand = read_u32(demand).ok_or(BadLine)?;
            if !is_id(id) {
                return Err(OrMemory::Fault(BadLine));
            }
            let offers = read_offers(alloc, offers)?;
            let id = read_id(alloc, id)?;
            Ok(Row { id, demand, offers })
        }
        None => {
            let demand = read_u32(rest).ok_or(BadLine)?;
            let id = read_id(alloc, id)?;
            let offers = Offers::new(alloc);
            Ok(Row { id, demand, offers })
        }
    }
}

/// A row's set and value, by the row's id.
#[derive(Clone, Copy)]
pub struct Hold<'a> {
    pub id: &'a [u8],
    pub cpus: IdSet,
    pub value: u64,
}

/// ID LIST VALUE.
pub fn read_hold(text: &[u8]) -> Option<Hold<'_>>
    ensures { MatchOption result ((id : List ℕ) (cpus : Ids) (value : ℕ)
        → AreHoldWords (words text.now) id cpus value → ⊥)
        (λ hold. AreHoldWords (words text.now) hold.id.now hold.cpus hold.value) }
{
    let (id, cpus, value) = split_triple(text, b' ')?;
    let cpus = read_cpus(cpus)?;
    let value = read_u64(value)?;
    Some(Hold { id, cpus, value })
}

/// AMOUNT LIST.
pub fn read_price(text: &[u8]) -> Option<Price>
    ensures { MatchOption result ((price : Price) → ArePriceWords (words text.now) price → ⊥)
        (λ price. ArePriceWords (words text.now) price) }
{
    let (amount, cpus) = split_pair(text, b' ')?;
    let amount = read_u64(amount)?;
    let cpus = read_cpus(cpus)?;
    Some(Price { amount, cpus })
}

/// A plan's total, and what it counts.
#[derive(Clone, Copy)]
pub struct Total {
    pub weights: Weights,
    pub total: u64,
}

/// TOTAL, or DISTANCE moves MOVES.
pub fn read_total(text: &[u8]) -> Option<Total>
    ensures { MatchOption result ((weights : Weights) (total : ℕ) → SayTotal weights (words text.now) total → ⊥)
        (λ t. SayTotal t.weights (words text.now) t.total) }
{
    match split_once(text, b' ') {
        Some(_) => {
            let total = read_moves(text)?;
            Some(Total {
                weights: Weights::WithMoves,
                total,
            })
        }
        None => {
            let total = read_u64(text)?;
            Some(Total {
                weights: Weights::Plain,
                total,
            })
        }
    }
}

/// A distance is below this, 2^48, so that it fits 64 bits together with the moves.
const DISTANCE_LIMIT: u64 = 281_474_976_710_656;

/// DISTANCE moves MOVES.
fn read_moves(text: &[u8]) -> Option<u64>
    ensures { MatchOption result ((total : ℕ) → AreMovesWords (words text.now) total → ⊥)
        (λ total. AreMovesWords (words text.now) total) }
{
    let (first, word, second) = split_triple(text, b' ')?;
    if word != b"moves".as_slice() {
        return None;
    }
    let distance = read_below(first, DISTANCE_LIMIT)?;
    let moves = read_below(second, u64::from(MOVE_SCALE))?;
    Some(Cost { distance, moves }.pack())
}

/// ID.
pub fn read_short(text: &[u8]) -> Option<&[u8]>
    ensures { MatchOption result ((id : List ℕ) → words text.now ≡ id ∷ [] → ⊥)
        (λ id. words text.now ≡ id.now ∷ []) }
{
    match split_once(text, b' ') {
        Some(_) => None,
        None => Some(text),
    }
}
