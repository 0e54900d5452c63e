//! `start`, `kill` and `delete` (OCI Runtime Specification 1.0.2, runtime.md, "Operations").
ghost use Rattle.std.specs.Prelude.{◌≡◌, ◌+◌, ◌++◌};
ghost use Rattle.kernel_model.specs.KernelState.{writes};
ghost use Rattle.node.specs.Calls.{Starts, Kills, Deletes, is_ending, is_created};
ghost use Rattle.node.specs.Leaves.{rise_of};
ghost use Rattle.node.specs.Told.{delete_told, kill_told};
ghost use Rattle.node.specs.Written.{one_write};
ghost use Rattle.node.specs.Viewed.{viewed};

use crate::container::Container;
use crate::containers::{find, mark_started, take_out};
use crate::{Node, NodeFault};
use kernel_model::Kernel;

/// Whether a signal ends a process: `KILL` or `TERM`, by its name or its number.
fn is_ending(signal: &str) -> bool
    ensures { result ≡ is_ending signal.now }
{
    signal == "KILL"
        || signal == "SIGKILL"
        || signal == "9"
        || signal == "TERM"
        || signal == "SIGTERM"
        || signal == "15"
}

/// Whether a container is live, and was not started.
fn is_created<K: Kernel>(kernel: &K, container: &Container) -> bool
    ensures { result ≡ is_created (K.state kernel.now) (viewed container.now) }
{
    kernel.first_alive(container.pid) && !container.started
}

impl<K: Kernel + Drop> Node<K> {
    /// Starts a container that was created.
    ///
    /// # Errors
    /// In this order: `NoContainer`, `NotCreated`, `NotRunnable`.
    pub fn start(&mut self, id: &str) -> Result<(), NodeFault>
        // It changes what it is for and nothing else, and makes no writing call.
        ensures { Starts self.old id.now result self.new }
    {
        let Some(container) = find(&self.containers, id) else {
            return Err(NodeFault::NoContainer);
        };
        if !is_created(&self.kernel, container) {
            return Err(NodeFault::NotCreated);
        }
        if !container.runnable {
            return Err(NodeFault::NotRunnable);
        }
        mark_started(&mut self.containers, id);
        Ok(())
    }

    /// Ends all processes of a container.
    fn kill_body(&mut self, id: &str, signal: &str) -> Result<(), NodeFault>
        ensures { Kills self.old id.now signal.now result self.new }
    {
        if !is_ending(signal) {
            return Err(NodeFault::BadSignal);
        }
        let Some(container) = find(&self.containers, id) else {
            return Err(NodeFault::NoContainer);
        };
        if !self.kernel.first_alive(container.pid) {
            return Err(NodeFault::NotLive);
        }
        if let Err(fault) = self.kernel.end_group(container.group) {
            return Err(NodeFault::Kernel(fault));
        }
        Ok(())
    }

    /// Removes a stopped container and its group.
    fn delete_body(&mut self, id: &str) -> Result<(), NodeFault>
        ensures { Deletes self.old id.now result self.new }
    {
        if self.phase.is_underway() {
            return Err(NodeFault::Busy);
        }
        let Some(container) = find(&self.containers, id) else {
            return Err(NodeFault::NoContainer);
        };
        if self.kernel.first_alive(container.pid) {
            return Err(NodeFault::NotStopped);
        }
        if let Err(fault) = self.kernel.remove_group(container.group) {
            return Err(NodeFault::Kernel(fault));
        }
        take_out(&mut self.containers, id);
        Ok(())
    }

    /// Ends all processes of a container, by a signal that ends a process.
    ///
    /// # Errors
    /// In this order: `BadSignal`, `NoContainer`, `NotLive`; or `Failed` of the kernel, where nothing ended.
    pub fn kill(&mut self, id: &str, signal: &str) -> Result<(), NodeFault>
        // It changes what it is for and nothing else. The only thing that the kernel answers in it is that its write
        // failed.
        ensures kills { Kills self.old id.now signal.now result self.new }
        ensures counted { self.new.kernel.failures ≡ self.old.kernel.failures + rise_of result }
        // It makes one writing call, the end of all processes of its group, or none if the refusal is the node's own.
        ensures told { self.new.kernel.trace ≡ kill_told self.old id.now result ++ self.old.kernel.trace }
        ensures made { writes self.new.kernel ≡ writes self.old.kernel + one_write result }
    {
        self.kill_body(id, signal)
    }

    /// Removes a stopped container and its group.
    ///
    /// # Errors
    /// In this order: `Busy`, `NoContainer`, `NotStopped`; or `Failed` of the kernel, where nothing is removed.
    pub fn delete(&mut self, id: &str) -> Result<(), NodeFault>
        // It changes what it is for and nothing else. The only thing that the kernel answers in it is that its write
        // failed.
        ensures deletes { Deletes self.old id.now result self.new }
        ensures counted { self.new.kernel.failures ≡ self.old.kernel.failures + rise_of result }
        // It makes one writing call, the removal of its group, or none if the refusal is the node's own.
        ensures told { self.new.kernel.trace ≡ delete_told self.old id.now result ++ self.old.kernel.trace }
        ensures made { writes self.new.kernel ≡ writes self.old.kernel + one_write result }
    {
        self.delete_body(id)
    }
}
