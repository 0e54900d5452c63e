ghost use Rattle.std.specs.Prelude.{◌≡◌};

use demand::Demand;
use kernel_model::Group;

/// What a container does (OCI Runtime Specification 1.0.2, runtime.md, "State").
#[derive(Clone, Copy, Debug, PartialEq, Eq)]
pub enum Status {
    /// Its first process is alive, and it was not started yet.
    Created,
    /// Its first process is alive, and it was started.
    Running,
    /// Its first process has ended.
    Stopped,
}

impl Status {
    ghost use Rattle.node.specs.Shown.{status_text};

    /// The status as a word.
    pub fn word(self) -> &'static str
        ensures { result.now ≡ status_text self }
    {
        match self {
            Status::Created => "created",
            Status::Running => "running",
            Status::Stopped => "stopped",
        }
    }
}

/// A container; its id is its key among the others.
#[derive(Drop)]
pub struct Container {
    /// The bundle that it was created from.
    pub bundle: String,
    /// What it asks for.
    pub demand: Demand,
    /// Whether its config names something to run.
    pub runnable: bool,
    /// Its group.
    pub group: Group,
    /// Its first process.
    pub pid: u32,
    /// Whether it was started.
    pub started: bool,
}
