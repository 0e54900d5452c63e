//! What happens in the kernel beside the node's calls.
ghost use Rattle.std.specs.Prelude.{◌≡◌};
ghost use Rattle.kernel_model.specs.Cases.{Forks, Exits, GoesOffline, ComesOnline};

use crate::Node;
use faults::OrMemory;
use kernel_model::{Kernel, KernelFault};

impl<K: Kernel + Drop> Node<K> {
    /// A process forks.
    ///
    /// # Errors
    /// `NoProcess`, `NoPids`, or an allocation failure.
    pub fn fork(&mut self, parent: u32) -> Result<u32, OrMemory<KernelFault>>
        ensures event { Forks self.old.kernel parent result self.new.kernel }
        ensures rest { self.new ≡ record self.old { kernel = self.new.kernel } }
    {
        self.kernel.fork(parent)
    }

    /// A process ends, and all that belong to it if it is a first one.
    ///
    /// # Errors
    /// `NoProcess`.
    pub fn exit(&mut self, pid: u32) -> Result<(), KernelFault>
        ensures event { Exits self.old.kernel pid result self.new.kernel }
        ensures rest { self.new ≡ record self.old { kernel = self.new.kernel } }
    {
        self.kernel.exit(pid)
    }

    /// A CPU goes offline, or stays so. What the containers request stays.
    ///
    /// # Errors
    /// `NoCpu`, `Reserved`.
    pub fn offline(&mut self, cpu: u32) -> Result<(), KernelFault>
        ensures event { GoesOffline self.old.kernel cpu result self.new.kernel }
        ensures rest { self.new ≡ record self.old { kernel = self.new.kernel } }
    {
        self.kernel.offline(cpu)
    }

    /// A CPU comes online, or stays so.
    ///
    /// # Errors
    /// `NoCpu`.
    pub fn online_cpu(&mut self, cpu: u32) -> Result<(), KernelFault>
        ensures event { ComesOnline self.old.kernel cpu result self.new.kernel }
        ensures rest { self.new ≡ record self.old { kernel = self.new.kernel } }
    {
        self.kernel.online_cpu(cpu)
    }
}
