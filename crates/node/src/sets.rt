//! What can be asked of a container.
ghost use Rattle.std.specs.Prelude.{◌≡◌, true};
ghost use Rattle.cpuset_tree.specs.Groups.{has_group};
ghost use Rattle.node.specs.Status.{status_of};
ghost use Rattle.node.specs.Viewed.{viewed};
ghost use Rattle.node.specs.Sets.{sets_at, HasSets};

use crate::container::{Container, Status};
use crate::containers::find;
use crate::{Node, NodeFault};
use cpu_set::IdSet;
use kernel_model::{Group, Kernel};

/// The CPUs and memory nodes that a container requests, and those that it has in effect.
#[derive(Clone, Copy, Debug, PartialEq, Eq)]
pub struct Sets {
    /// The CPUs that it requests.
    pub cpus: IdSet,
    /// The CPUs that it has in effect.
    pub effective_cpus: IdSet,
    /// The memory nodes that it requests.
    pub mems: IdSet,
    /// The memory nodes that it has in effect.
    pub effective_mems: IdSet,
}

/// What a container does.
pub fn status<K: Kernel>(kernel: &K, container: &Container) -> Status
    ensures { result ≡ status_of (K.state kernel.now) (viewed container.now) }
{
    if !kernel.first_alive(container.pid) {
        Status::Stopped
    } else if container.started {
        Status::Running
    } else {
        Status::Created
    }
}

/// The sets of a group.
fn sets_of<K: Kernel>(kernel: &K, group: Group) -> Sets
    requires { has_group (K.state kernel.now).tree group ≡ true }
    ensures { result ≡ sets_at (K.state kernel.now) group }
{
    let answers = (
        kernel.requested_cpus(group),
        kernel.effective_cpus(group),
        kernel.requested_mems(group),
        kernel.effective_mems(group),
    );
    match answers {
        (Ok(cpus), Ok(effective_cpus), Ok(mems), Ok(effective_mems)) => Sets {
            cpus: *cpus,
            effective_cpus: *effective_cpus,
            mems: *mems,
            effective_mems: *effective_mems,
        },
        _ => unreachable!(),
    }
}

impl<K: Kernel + Drop> Node<K> {
    /// The sets of a container.
    ///
    /// # Errors
    /// `NoContainer`.
    pub fn sets(&self, id: &str) -> Result<Sets, NodeFault>
        // They are the container's requested and effective sets.
        ensures { HasSets self.now id.now result }
    {
        match find(&self.containers, id) {
            Some(container) => Ok(sets_of(&self.kernel, container.group)),
            None => Err(NodeFault::NoContainer),
        }
    }
}
