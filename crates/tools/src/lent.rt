//! A kernel that is lent, so that it can be looked at once a node is done with it.

use cpu_set::IdSet;
use faults::OrMemory;
use kernel_model::{Group, Kernel, KernelFault};

/// A kernel that somebody else owns.
#[derive(Drop)]
pub struct Lent<'a, K: Kernel> {
    pub kernel: &'a mut K,
}

impl<K: Kernel> Kernel for Lent<'_, K> {
    ghost state = { λ lent. K.state lent.kernel.now };

    fn make_group(&mut self, parent: Group, name: &str) -> Result<Group, OrMemory<KernelFault>> {
        self.kernel.make_group(parent, name)
    }

    fn remove_group(&mut self, group: Group) -> Result<(), KernelFault> {
        self.kernel.remove_group(group)
    }

    fn write_cpus(&mut self, group: Group, cpus: IdSet) -> Result<(), KernelFault> {
        self.kernel.write_cpus(group, cpus)
    }

    fn write_mems(&mut self, group: Group, mems: IdSet) -> Result<(), KernelFault> {
        self.kernel.write_mems(group, mems)
    }

    fn spawn(&mut self, group: Group) -> Result<u32, OrMemory<KernelFault>> {
        self.kernel.spawn(group)
    }

    fn end_group(&mut self, group: Group) -> Result<(), KernelFault> {
        self.kernel.end_group(group)
    }

    fn root(&self) -> Group {
        self.kernel.root()
    }

    fn find_group(&self, parent: Group, name: &str) -> Result<Option<Group>, KernelFault> {
        self.kernel.find_group(parent, name)
    }

    fn makable(&self, parent: Group, name: &str) -> Result<(), KernelFault> {
        self.kernel.makable(parent, name)
    }

    fn has_pids(&self) -> bool {
        self.kernel.has_pids()
    }

    fn requested_cpus(&self, group: Group) -> Result<&IdSet, KernelFault> {
        self.kernel.requested_cpus(group)
    }

    fn effective_cpus(&self, group: Group) -> Result<&IdSet, KernelFault> {
        self.kernel.effective_cpus(group)
    }

    fn requested_mems(&self, group: Group) -> Result<&IdSet, KernelFault> {
        self.kernel.requested_mems(group)
    }

    fn effective_mems(&self, group: Group) -> Result<&IdSet, KernelFault> {
        self.kernel.effective_mems(group)
    }

    fn online(&self) -> IdSet {
        self.kernel.online()
    }

    fn nodes(&self) -> IdSet {
        self.kernel.nodes()
    }

    fn first_alive(&self, pid: u32) -> bool {
        self.kernel.first_alive(pid)
    }

    fn fork(&mut self, parent: u32) -> Result<u32, OrMemory<KernelFault>> {
        self.kernel.fork(parent)
    }

    fn exit(&mut self, pid: u32) -> Result<(), KernelFault> {
        self.kernel.exit(pid)
    }

    fn offline(&mut self, cpu: u32) -> Result<(), KernelFault> {
        self.kernel.offline(cpu)
    }

    fn online_cpu(&mut self, cpu: u32) -> Result<(), KernelFault> {
        self.kernel.online_cpu(cpu)
    }
}
