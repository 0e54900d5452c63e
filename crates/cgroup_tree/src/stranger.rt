//! A folder that was there before a run.
use cpu_set::IdSet;

/// A folder that was there before a run, and that no container of the run has.
#[derive(Drop)]
pub struct Stranger {
    /// Its name.
    pub name: String,
    /// The CPUs that its `cpuset.cpus` held as the tree was opened.
    pub cpus: IdSet,
}
