use cpu_set::IdSet;
use kernel_model::Group;

/// A container of a hand-over, and the CPUs that it is to have.
#[derive(Clone, Copy, Debug, PartialEq, Eq)]
pub struct Entry {
    /// The container's group.
    pub group: Group,
    /// Its first process: once that has ended, the entry is passed over.
    pub pid: u32,
    /// Whether its CPUs are its own, shared with no other container.
    pub pinned: bool,
    /// The CPUs that it is to have.
    pub target: IdSet,
}
