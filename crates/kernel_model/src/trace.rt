//! What a kernel was asked: a list that only proofs read.
ghost use Rattle.std.specs.Prelude.{◌≡◌, List, [], ◌∷◌};
ghost use Rattle.std.specs.Borrow.{ftrue};
ghost use Rattle.kernel_model.specs.Trace.{WritingCall};
ghost use Rattle.kernel_model.specs.TraceCodeLemmas.{trace_code};

use crate::KernelFault;
use cpu_set::IdSet;
use cpuset_tree::Group;
use faults::OrMemory;
use std::marker::Model;

/// The writing calls that were made of a kernel, each with its answer, the newest first. It allocates nothing, and
/// nothing of it runs.
#[derive(Drop)]
pub struct Trace {
    pub ghost calls: { List WritingCall } by { trace_code },
}

impl Model for Trace {
    ghost also_owns = { λ _. ftrue };
}

/// A writing call of a kernel that was made, and what it answered.
#[derive(Clone, Copy, Drop)]
pub enum CallMade<'a> {
    /// `make_group`.
    Group(Group, &'a str, Result<Group, OrMemory<KernelFault>>),
    /// `remove_group`.
    Removal(Group, Result<(), KernelFault>),
    /// `write_cpus`.
    Cpus(Group, &'a IdSet, Result<(), KernelFault>),
    /// `write_mems`.
    Mems(Group, &'a IdSet, Result<(), KernelFault>),
    /// `spawn`.
    Process(Group, Result<u32, OrMemory<KernelFault>>),
    /// `end_group`.
    End(Group, Result<(), KernelFault>),
}

impl Trace {
    ghost use Rattle.kernel_model.specs.Told.{told};

    /// No call yet.
    pub fn none() -> Trace
        ensures { result.calls ≡ [] }
    {
        Trace {}
    }

    /// One call more.
    #[inline(always)]
    pub fn then(&self, _call: &CallMade<'_>) -> Trace
        ensures { result.calls ≡ told _call.now ∷ self.now.calls }
    {
        Trace {}
    }
}
