use faults::Fault;

/// Why a process table refuses a call.
#[derive(Clone, Copy, Debug, PartialEq, Eq)]
pub enum ProcFault {
    /// The last pid was given.
    NoPids,
    /// No such process is alive.
    NoProcess,
}

impl Fault for ProcFault {}
