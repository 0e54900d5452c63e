//! Whom a plan or a shortage names.
ghost use Rattle.std.specs.Prelude.{IsSome};
ghost use Rattle.node.specs.Named.{Names};

use crate::Node;
use crate::opening::shown_cpus;
use certificate::{Certificate, Row};
use cpu_set::IdSet;
use kernel_model::Kernel;

/// The containers that a plan or a shortage names, by reference to what the node keeps of it.
#[derive(Clone, Copy, Debug)]
pub enum Named<'a> {
    /// Those of a plan, in the order in which they were created, and the CPUs of each.
    Holders {
        rows: &'a [Row],
        sets: &'a [IdSet],
    },
    /// Those of a shortage: the places of its members among the rows.
    Members {
        rows: &'a [Row],
        members: &'a [usize],
    },
}

impl<K: Kernel + Drop> Node<K> {
    /// Whom the plan or the shortage names that was worked out last; none of it is worked out again.
    pub fn named(&self) -> Named<'_>
        requires { IsSome self.now.last }
        // Of a plan it lends the certificate's rows and the CPUs of each, of a shortage the rows and the places of its
        // members.
        ensures { Names self.now result }
    {
        let Some(certificate) = &self.last else {
            unreachable!()
        };
        match certificate {
            Certificate::Plan { problem, plan, .. } => Named::Holders {
                rows: problem.rows.as_slice(),
                sets: shown_cpus(&self.machine, plan.sets.as_slice(), self.kept.as_slice()),
            },
            Certificate::Short {
                problem,
                members,
                ..
            } => Named::Members {
                rows: problem.rows.as_slice(),
                members: members.rows.as_slice(),
            },
        }
    }
}
