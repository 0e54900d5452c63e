ghost use Rattle.std.specs.Prelude.{◌≡◌, ◌+◌, ◌<◌, ◌^◌, nat_lt, length, slice_get};
ghost use Rattle.std.specs.Prelude.{Some, is_some, IfOk, IfSome, OnErr};
ghost use Rattle.certificate_text.specs.Line.{HeaderLine, RowLine, HoldLine, PriceLine, TotalLine, ShortLine, EndLine};
ghost use Rattle.certificate_text.specs.Line.{Spells};
ghost use Rattle.certificate_text.specs.DraftView.{are_same};
ghost use Rattle.certificate_text.specs.LineRead.{line_view};
ghost use Rattle.certificate_text.specs.Takes.{Takes};

use crate::bad_line::BadLine;
use crate::held::lists_of;
use crate::line::{Line, second_word};
use crate::line_words::{Hold, Total};
use crate::stage::Stage;
use crate::{Certificate, Members};
use certificate::{MAX_ROWS, Plan, Price, PriceList, Prices, Problem, Row, Weights};
use faults::OrMemory;
use std::alloc::{AllocError, Global};
use std::collections::BTreeSet;
use std::marker::Model;
use tagged_sets::TaggedSets;

/// Whether both count the same.
fn are_same(a: Weights, b: Weights) -> bool
    ensures { result ≡ are_same a b }
{
    match a {
        Weights::Plain => matches!(b, Weights::Plain),
        Weights::WithMoves => matches!(b, Weights::WithMoves),
    }
}

/// What has been read of a certificate's text.
#[derive(Drop)]
pub struct Draft<'a> {
    stage: Stage,
    rows: Vec<Row>,
    /// The ids of the rows, where the text has them.
    ids: BTreeSet<&'a [u8]>,
    /// The set of each row that has one, with its value: as much memory as it has ranges.
    held: TaggedSets<u64>,
    prices: PriceList,
    members: Vec<usize>,
    /// The first row after the members.
    from: usize,
    total: u64,
    weights: Weights,
}

impl<'a> Model for Draft<'a> {
    ghost use Rattle.certificate_text.specs.DraftView.{DraftView, draft_code};

    ghost Value = { DraftView };

    ghost coded = { draft_code };

    ghost use Rattle.certificate_text.specs.DraftRead.{draft_view, IsKept};

    ghost view = { draft_view };

    ghost invariant = { IsKept };
}

impl<'a> Draft<'a> {
    ghost use Rattle.certificate_text.specs.DraftView.{empty_draft, has_id, has_no_plan, is_held, is_id_of, number_of};
    ghost use Rattle.certificate_text.specs.DraftView.{takes_members, takes_row};
    ghost use Rattle.certificate_text.specs.RowTaken.{rows_draft};
    ghost use Rattle.std.specs.Prelude.{[]};
    ghost use Rattle.certificate_text.specs.Finished.{finished, IsComplete, HasSets};

    /// A draft of which nothing has been read.
    pub fn new(alloc: Global) -> Draft<'a>
        ensures { result ≡ empty_draft }
    {
        Draft {
            stage: Stage::Start,
            rows: Vec::new(alloc),
            ids: BTreeSet::new(alloc),
            held: TaggedSets::new(alloc),
            prices: PriceList::new(alloc),
            members: Vec::new(alloc),
            from: 0,
            total: 0,
            weights: Weights::Plain,
        }
    }

    /// A draft that is ready for rows.
    pub fn of_rows(alloc: Global) -> Draft<'a>
        ensures { result ≡ rows_draft [] }
    {
        let mut draft = Draft::new(alloc);
        draft.stage = Stage::Body;
        draft
    }

    /// Adds what the next line of the text says, if that line can follow the lines before it.
    pub fn take(&mut self, said: Line<'_>, line: &'a [u8]) -> Result<(), OrMemory<BadLine>>
        requires { Spells line.now (line_view said) }
        ensures { Takes result self.old (line_view said.entry) self.new }
    {
        match said {
            Line::Header(weights) => self.begin(weights),
            Line::Row(row) => self.add_row(second_word(line), row),
            Line::Hold(hold) => self.add_hold(hold),
            Line::Price(price) => self.add_price(price),
            Line::Total(total) => self.add_total(total),
            Line::Short(id) => self.add_member(id),
            Line::End => self.end(),
        }
    }

    fn begin(&mut self, weights: Weights) -> Result<(), OrMemory<BadLine>>
        ensures { Takes result self.old (HeaderLine weights) self.new }
    {
        match self.stage {
            Stage::Start => {
                self.stage = Stage::Body;
                self.weights = weights;
                Ok(())
            }
            _ => Err(OrMemory::Fault(BadLine)),
        }
    }

    #[tactic(auto, using(crate::proofs::HeldSets::sets_length))]
    fn has_no_plan(&self) -> bool
        ensures { result ≡ has_no_plan self.now }
    {
        self.held.len() == 0 && self.prices.len() == 0
    }

    /// Whether a row of this id can follow.
    pub fn takes_row(&self, id: &[u8]) -> bool
        ensures { result ≡ takes_row id.now self.now }
    {
        match self.stage {
            Stage::Body => self.has_no_plan() && !self.has_row(id),
            _ => false,
        }
    }

    fn has_row(&self, id: &[u8]) -> bool
        ensures { result ≡ has_id id.now self.now.rows }
    {
        self.rows.iter().any(|row| id == row.id.as_bytes())
    }

    /// Rows come before all sets, prices and members, and no two have one id.
    pub fn add_row(&mut self, id: &'a [u8], row: Row) -> Result<(), OrMemory<BadLine>>
        requires { id.now ≡ row.id }
        ensures { Takes result self.old (RowLine row) self.new }
    {
        let Stage::Body = self.stage else {
            return Err(OrMemory::Fault(BadLine));
        };
        if !self.has_no_plan() {
            return Err(OrMemory::Fault(BadLine));
        }
        if self.ids.contains(id) {
            return Err(OrMemory::Fault(BadLine));
        }
        self.rows.reserve(1)?;
        self.ids.insert(id)?;
        self.rows.push(row)?;
        Ok(())
    }

    /// Whether the first row that has no set yet is of this id.
    fn awaits(&self, id: &[u8]) -> bool
        ensures { result ≡ is_id_of id.now (slice_get self.now.rows (length self.now.sets)) }
    {
        match self.rows.get(self.held.len()) {
            Some(row) => row.id.as_bytes() == id,
            None => false,
        }
    }

    /// A set and a value are those of the first row that has none yet, and of this id.
    #[tactic(auto, using(crate::proofs::HeldSets::sets_push, crate::proofs::HeldSets::values_push))]
    fn add_hold(&mut self, hold: Hold<'_>) -> Result<(), OrMemory<BadLine>>
        ensures { Takes result self.old (HoldLine hold.entry.id.now hold.entry.cpus hold.entry.value) self.new }
    {
        let Stage::Body = self.stage else {
            return Err(OrMemory::Fault(BadLine));
        };
        if !self.awaits(hold.id) {
            return Err(OrMemory::Fault(BadLine));
        }
        let cpus = hold.cpus;
        self.held.push(hold.value, &cpus)?;
        Ok(())
    }

    /// Whether each row has its set and value.
    #[tactic(auto, using(crate::proofs::HeldSets::sets_length))]
    fn is_held(&self) -> bool
        ensures { result ≡ is_held self.now }
    {
        self.held.len() == self.rows.len()
    }

    /// Prices come once each row has its set.
    fn add_price(&mut self, price: Price) -> Result<(), OrMemory<BadLine>>
        ensures { Takes result self.old (PriceLine price) self.new }
    {
        let Stage::Body = self.stage else {
            return Err(OrMemory::Fault(BadLine));
        };
        if !self.is_held() {
            return Err(OrMemory::Fault(BadLine));
        }
        self.prices.push(price)?;
        Ok(())
    }

    /// The total comes once each row has its set, and in two numbers where the first line says so.
    fn add_total(&mut self, total: Total) -> Result<(), OrMemory<BadLine>>
        ensures { Takes result self.old (TotalLine total.weights total.total) self.new }
    {
        let Stage::Body = self.stage else {
            return Err(OrMemory::Fault(BadLine));
        };
        if !self.is_held() {
            return Err(OrMemory::Fault(BadLine));
        }
        if !are_same(total.weights, self.weights) {
            return Err(OrMemory::Fault(BadLine));
        }
        self.total = total.total;
        self.stage = Stage::Totalled;
        Ok(())
    }

    /// The number of the row with this id, among those after the members.
    #[tactic(auto, unfolding(crate::specs::DraftView::number_of))]
    fn number_of(&self, id: &[u8]) -> Option<usize>
        ensures number { result ≡ number_of id.now self.now }
        ensures within { IfSome result (λ k. (k < length self.now.rows) × (k + 1 < 2 ^ 64)) }
    {
        let mut number = self.from;
        while number < self.rows.len() {
            if self.rows[number].id.as_bytes() == id {
                return Some(number);
            }
            number += 1;
        }
        None
    }

    /// Whether a member can follow.
    fn takes_members(&self) -> bool
        ensures { result ≡ takes_members self.now }
    {
        match self.stage {
            Stage::Body => self.has_no_plan(),
            Stage::Named => true,
            _ => false,
        }
    }

    /// Members come after the rows, in the rows' order.
    fn add_member(&mut self, id: &[u8]) -> Result<(), OrMemory<BadLine>>
        ensures { Takes result self.old (ShortLine id.now) self.new }
    {
        if !self.takes_members() {
            return Err(OrMemory::Fault(BadLine));
        }
        let Some(number) = self.number_of(id) else {
            return Err(OrMemory::Fault(BadLine));
        };
        self.members.push(number)?;
        self.stage = Stage::Named;
        self.from = number + 1;
        Ok(())
    }

    fn end(&mut self) -> Result<(), OrMemory<BadLine>>
        ensures { Takes result self.old EndLine self.new }
    {
        match self.stage {
            Stage::Totalled => {
                self.stage = Stage::Planned;
                Ok(())
            }
            Stage::Named => {
                self.stage = Stage::Shown;
                Ok(())
            }
            _ => Err(OrMemory::Fault(BadLine)),
        }
    }

    /// The problem of the rows that have been read.
    pub fn into_problem(self) -> Problem
        ensures { result ≡ self.entry.rows }
    {
        Problem { rows: self.rows }
    }

    /// Whether all of a certificate has been read.
    pub fn is_complete(&self) -> bool
        ensures { result ≡ is_some (finished self.now) }
    {
        matches!(self.stage, Stage::Planned | Stage::Shown)
    }

    /// Whether there are more rows than are checked.
    pub fn has_too_many_rows(&self) -> bool
        ensures { result ≡ nat_lt MAX_ROWS (length self.now.rows) }
    {
        self.rows.len() > MAX_ROWS
    }

    /// The certificate, all of which has been read.
    pub fn finish(self, alloc: Global) -> Result<Certificate, AllocError>
        requires { IsComplete self }
        ensures ok { IfOk result (λ c. finished self.entry ≡ Some c) }
        ensures err { OnErr result (HasSets self.entry) }
    {
        let problem = Problem { rows: self.rows };
        let Stage::Planned = self.stage else {
            return Ok(Certificate::Short {
                problem,
                members: Members { rows: self.members },
                weights: self.weights,
            });
        };
        let (sets, values) = lists_of(alloc, &self.held)?;
        Ok(Certificate::Plan {
            problem,
            plan: Plan { sets },
            prices: Prices {
                values,
                of_cpu: self.prices,
            },
            total: self.total,
            weights: self.weights,
        })
    }
}
