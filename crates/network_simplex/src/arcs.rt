//! The arcs of the transportation problem, those of a class together.

use crate::tree::number_of;
use certificate::Row;
use cpu_set::{CPU_LIMIT, IdSet};
use std::alloc::{AllocError, Global};

/// An arc to a class: the row may have CPUs of the class at this weight.
#[derive(Clone, Copy)]
pub(crate) struct Arc {
    pub row: u32,
    pub weight: u32,
}

/// The arcs to each class, from rows in order and last from the root, which is numbered behind the rows and weighs 0.
#[derive(Drop)]
pub(crate) struct Arcs {
    all: Vec<Arc>,
    /// Where the arcs of each class end. Those of the next one begin there.
    ends: Vec<usize>,
}

impl Arcs {
    pub(crate) fn new(alloc: Global, rows: &[Row], classes: &[IdSet]) -> Result<Arcs, AllocError> {
        let class_of = classes_by_first(alloc, classes)?;
        let mut arcs = Arcs {
            all: Vec::new(alloc),
            ends: vec![in alloc; 0usize; classes.len()]?,
        };
        arcs.note_all(rows, class_of.as_slice());
        let count = arcs.begin();
        arcs.all = vec![in alloc; Arc { row: 0, weight: 0 }; count]?;
        arcs.note_all(rows, class_of.as_slice());
        Ok(arcs)
    }

    /// How many arcs there are.
    pub(crate) fn len(&self) -> usize {
        self.all.len()
    }

    /// How many classes there are.
    pub(crate) fn classes(&self) -> usize {
        self.ends.len()
    }

    /// The arcs to a class.
    pub(crate) fn of_class(&self, class: usize) -> &[Arc] {
        let first = match self.ends.get(class.wrapping_sub(1)) {
            Some(end) => *end,
            None => 0,
        };
        let last = match self.ends.get(class) {
            Some(end) => *end,
            None => 0,
        };
        self.all.get(first..last).unwrap_or(&[])
    }

    /// Notes each arc: as long as there is no room for arcs they are counted, else they are written.
    fn note_all(&mut self, rows: &[Row], class_of: &[usize]) {
        for (k, row) in rows.iter().enumerate() {
            self.note_row(number_of(k), row, class_of);
        }
        let root = Arc {
            row: number_of(rows.len()),
            weight: 0,
        };
        for class in 0..self.ends.len() {
            self.note(class, root);
        }
    }

    fn note_row(&mut self, k: u32, row: &Row, class_of: &[usize]) {
        for at in 0..row.offers.len() {
            let arc = Arc {
                row: k,
                weight: row.offers.weight(at),
            };
            self.note_ranges(arc, row.offers.ranges(at), class_of);
        }
    }

    /// Notes the arc for each class that has its first CPU in one of the ranges.
    fn note_ranges(&mut self, arc: Arc, ranges: &[(u16, u16)], class_of: &[usize]) {
        for range in ranges {
            let (first, last) = *range;
            for cpu in first..last.wrapping_add(1) {
                if let Some(class) = class_of.get(cpu as usize) {
                    self.note(*class, arc);
                }
            }
        }
    }

    fn note(&mut self, class: usize, arc: Arc) {
        if let Some(end) = self.ends.get_mut(class) {
            if let Some(place) = self.all.get_mut(*end) {
                *place = arc;
            }
            *end = end.wrapping_add(1);
        }
    }

    /// Makes of the number of each class's arcs the place where they begin. Returns the number of all.
    fn begin(&mut self) -> usize {
        let mut count = 0usize;
        for end in self.ends.iter_mut() {
            let arcs = *end;
            *end = count;
            count = count.wrapping_add(arcs);
        }
        count
    }
}

/// For each CPU the class whose first one it is, or a number past all classes.
fn classes_by_first(alloc: Global, classes: &[IdSet]) -> Result<Vec<usize>, AllocError> {
    let mut class_of = vec![in alloc; usize::MAX; CPU_LIMIT as usize]?;
    for (class, cpus) in classes.iter().enumerate() {
        if let Some(first) = cpus.first() {
            if let Some(place) = class_of.get_mut(first as usize) {
                *place = class;
            }
        }
    }
    Ok(class_of)
}
