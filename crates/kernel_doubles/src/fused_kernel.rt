//! A kernel of which one write fails: a test double (fault injection) of the crates `tools` and `scenarios`, which
//! `numarun` never makes.
ghost use Rattle.std.specs.Prelude.{◌≡◌, []};
ghost use Rattle.kernel_model.specs.declared.KernelFault.TheVariants.{Failed};
ghost use Rattle.faults.specs.declared.OrMemory.TheVariants.{Fault};
ghost use Rattle.kernel_doubles.specs.Fuse.{fuse_after, fused, HasWriteBehind, IsSet, FollowsTheCount, FailsAtTheNth};
ghost use Rattle.kernel_doubles.specs.Burning.{burnt, is_due};
ghost use Rattle.kernel_model.specs.KernelState.{writes};
ghost use Rattle.kernel_model.specs.Cases.{MakesGroup, RemovesGroup, WritesCpus, WritesMems, Spawns, EndsGroup, Forks};
ghost use Rattle.kernel_model.specs.Cases.{Exits};
ghost use Rattle.kernel_model.specs.Cases.{GoesOffline, ComesOnline};

use cpu_set::IdSet;
use faults::OrMemory;
use kernel_model::{CallMade, Group, Kernel, KernelFault, Trace};

/// How many writes are made until the one that fails.
#[derive(Clone, Copy, Debug, PartialEq, Eq)]
pub enum Fuse {
    /// The write of this number fails, counted from 1; with 0 none does.
    Waiting(u64),
    /// It has failed, and no other will.
    Blown,
}

impl Fuse {
    /// Counts a write, and says whether it is the one that fails.
    fn burn(&mut self) -> bool
        ensures fuse { self.new ≡ burnt self.old }
        ensures due { result ≡ is_due self.old }
    {
        match *self {
            Fuse::Waiting(1) => {
                *self = Fuse::Blown;
                true
            }
            Fuse::Waiting(left) => {
                *self = Fuse::Waiting(left.saturating_sub(1));
                false
            }
            Fuse::Blown => false,
        }
    }
}

/// A kernel of which one write fails, and which is the kernel within otherwise.
///
/// It tells each write that it is asked for: those of the kernel within, and the one that failed, which that never saw.
#[derive(Drop)]
pub struct FusedKernel<K: Kernel> {
    /// The kernel that does what is asked.
    pub inner: K,
    /// When a write fails.
    pub fuse: Fuse,
    /// What was asked of it since.
    pub trace: Trace,
    /// A fuse that has blown has a write behind it.
    pub ghost behind: { HasWriteBehind fuse trace.calls },
}

impl<K: Kernel> FusedKernel<K> {
    /// A kernel whose write of number `n` fails, counted from 1, refused ones too; with 0 none does. Allocates nothing.
    pub fn new(inner: K, n: u64) -> FusedKernel<K>
        ensures inner { result.inner ≡ inner }
        ensures fuse { result.fuse ≡ fuse_after n 0 }
        ensures trace { result.trace.calls ≡ [] }
    {
        FusedKernel {
            inner,
            fuse: Fuse::Waiting(n),
            trace: Trace::none(),
        }
    }

    /// The fuse was set for the nth write after some count of them, whatever was done with the kernel since. Nothing
    /// runs.
    pub fn is_set(&self)
        ensures { IsSet self.now.fuse (writes (fused self.now.fuse self.now.trace.calls (K.state self.now.inner))) }
    {
        let _ = &self.fuse;
    }
}

impl<K: Kernel> Kernel for FusedKernel<K> {
    ghost state = { λ k. fused k.fuse k.trace.calls (K.state k.inner) };

    fn make_group(&mut self, parent: Group, name: &str) -> Result<Group, OrMemory<KernelFault>>
        ensures case { MakesGroup (fused self.old.fuse self.old.trace.calls (K.state self.old.inner)) parent name.now
            result (fused self.new.fuse self.new.trace.calls (K.state self.new.inner)) }
        ensures fuse { FollowsTheCount self.old.fuse (fused self.old.fuse self.old.trace.calls (K.state self.old.inner))
            self.new.fuse (fused self.new.fuse self.new.trace.calls (K.state self.new.inner)) }
        ensures inner { FailsAtTheNth (Fault Failed) self.old.fuse
            (fused self.old.fuse self.old.trace.calls (K.state self.old.inner)) (K.state self.old.inner)
            (MakesGroup (K.state self.old.inner) parent name.now) result (K.state self.new.inner) }
    {
        let answer = if self.fuse.burn() {
            Err(OrMemory::Fault(KernelFault::Failed))
        } else {
            self.inner.make_group(parent, name)
        };
        self.trace = self.trace.then(&CallMade::Group(parent, name, answer));
        answer
    }

    fn remove_group(&mut self, group: Group) -> Result<(), KernelFault>
        ensures case { RemovesGroup (fused self.old.fuse self.old.trace.calls (K.state self.old.inner)) group result
            (fused self.new.fuse self.new.trace.calls (K.state self.new.inner)) }
        ensures fuse { FollowsTheCount self.old.fuse (fused self.old.fuse self.old.trace.calls (K.state self.old.inner))
            self.new.fuse (fused self.new.fuse self.new.trace.calls (K.state self.new.inner)) }
        ensures inner { FailsAtTheNth Failed self.old.fuse
            (fused self.old.fuse self.old.trace.calls (K.state self.old.inner)) (K.state self.old.inner)
            (RemovesGroup (K.state self.old.inner) group) result (K.state self.new.inner) }
    {
        let answer = if self.fuse.burn() {
            Err(KernelFault::Failed)
        } else {
            self.inner.remove_group(group)
        };
        self.trace = self.trace.then(&CallMade::Removal(group, answer));
        answer
    }

    fn write_cpus(&mut self, group: Group, cpus: IdSet) -> Result<(), KernelFault>
        ensures case { WritesCpus (fused self.old.fuse self.old.trace.calls (K.state self.old.inner)) group cpus result
            (fused self.new.fuse self.new.trace.calls (K.state self.new.inner)) }
        ensures fuse { FollowsTheCount self.old.fuse (fused self.old.fuse self.old.trace.calls (K.state self.old.inner))
            self.new.fuse (fused self.new.fuse self.new.trace.calls (K.state self.new.inner)) }
        ensures inner { FailsAtTheNth Failed self.old.fuse
            (fused self.old.fuse self.old.trace.calls (K.state self.old.inner)) (K.state self.old.inner)
            (WritesCpus (K.state self.old.inner) group cpus) result (K.state self.new.inner) }
    {
        let answer = if self.fuse.burn() {
            Err(KernelFault::Failed)
        } else {
            self.inner.write_cpus(group, cpus)
        };
        self.trace = self.trace.then(&CallMade::Cpus(group, &cpus, answer));
        answer
    }

    fn write_mems(&mut self, group: Group, mems: IdSet) -> Result<(), KernelFault>
        ensures case { WritesMems (fused self.old.fuse self.old.trace.calls (K.state self.old.inner)) group mems result
            (fused self.new.fuse self.new.trace.calls (K.state self.new.inner)) }
        ensures fuse { FollowsTheCount self.old.fuse (fused self.old.fuse self.old.trace.calls (K.state self.old.inner))
            self.new.fuse (fused self.new.fuse self.new.trace.calls (K.state self.new.inner)) }
        ensures inner { FailsAtTheNth Failed self.old.fuse
            (fused self.old.fuse self.old.trace.calls (K.state self.old.inner)) (K.state self.old.inner)
            (WritesMems (K.state self.old.inner) group mems) result (K.state self.new.inner) }
    {
        let answer = if self.fuse.burn() {
            Err(KernelFault::Failed)
        } else {
            self.inner.write_mems(group, mems)
        };
        self.trace = self.trace.then(&CallMade::Mems(group, &mems, answer));
        answer
    }

    fn spawn(&mut self, group: Group) -> Result<u32, OrMemory<KernelFault>>
        ensures case { Spawns (fused self.old.fuse self.old.trace.calls (K.state self.old.inner)) group result
            (fused self.new.fuse self.new.trace.calls (K.state self.new.inner)) }
        ensures fuse { FollowsTheCount self.old.fuse (fused self.old.fuse self.old.trace.calls (K.state self.old.inner))
            self.new.fuse (fused self.new.fuse self.new.trace.calls (K.state self.new.inner)) }
        ensures inner { FailsAtTheNth (Fault Failed) self.old.fuse
            (fused self.old.fuse self.old.trace.calls (K.state self.old.inner)) (K.state self.old.inner)
            (Spawns (K.state self.old.inner) group) result (K.state self.new.inner) }
    {
        let answer = if self.fuse.burn() {
            Err(OrMemory::Fault(KernelFault::Failed))
        } else {
            self.inner.spawn(group)
        };
        self.trace = self.trace.then(&CallMade::Process(group, answer));
        answer
    }

    fn end_group(&mut self, group: Group) -> Result<(), KernelFault>
        ensures case { EndsGroup (fused self.old.fuse self.old.trace.calls (K.state self.old.inner)) group result
            (fused self.new.fuse self.new.trace.calls (K.state self.new.inner)) }
        ensures fuse { FollowsTheCount self.old.fuse (fused self.old.fuse self.old.trace.calls (K.state self.old.inner))
            self.new.fuse (fused self.new.fuse self.new.trace.calls (K.state self.new.inner)) }
        ensures inner { FailsAtTheNth Failed self.old.fuse
            (fused self.old.fuse self.old.trace.calls (K.state self.old.inner)) (K.state self.old.inner)
            (EndsGroup (K.state self.old.inner) group) result (K.state self.new.inner) }
    {
        let answer = if self.fuse.burn() {
            Err(KernelFault::Failed)
        } else {
            self.inner.end_group(group)
        };
        self.trace = self.trace.then(&CallMade::End(group, answer));
        answer
    }

    fn root(&self) -> Group {
        self.inner.root()
    }

    fn find_group(&self, parent: Group, name: &str) -> Result<Option<Group>, KernelFault> {
        self.inner.find_group(parent, name)
    }

    fn makable(&self, parent: Group, name: &str) -> Result<(), KernelFault> {
        self.inner.makable(parent, name)
    }

    fn has_pids(&self) -> bool {
        self.inner.has_pids()
    }

    fn requested_cpus(&self, group: Group) -> Result<&IdSet, KernelFault> {
        self.inner.requested_cpus(group)
    }

    fn effective_cpus(&self, group: Group) -> Result<&IdSet, KernelFault> {
        self.inner.effective_cpus(group)
    }

    fn requested_mems(&self, group: Group) -> Result<&IdSet, KernelFault> {
        self.inner.requested_mems(group)
    }

    fn effective_mems(&self, group: Group) -> Result<&IdSet, KernelFault> {
        self.inner.effective_mems(group)
    }

    fn online(&self) -> IdSet {
        self.inner.online()
    }

    fn nodes(&self) -> IdSet {
        self.inner.nodes()
    }

    fn first_alive(&self, pid: u32) -> bool {
        self.inner.first_alive(pid)
    }

    fn fork(&mut self, parent: u32) -> Result<u32, OrMemory<KernelFault>>
        ensures case { Forks (fused self.old.fuse self.old.trace.calls (K.state self.old.inner)) parent result
            (fused self.new.fuse self.new.trace.calls (K.state self.new.inner)) }
        ensures fuse { FollowsTheCount self.old.fuse (fused self.old.fuse self.old.trace.calls (K.state self.old.inner))
            self.new.fuse (fused self.new.fuse self.new.trace.calls (K.state self.new.inner)) }
        ensures unburnt { self.new.fuse ≡ self.old.fuse }
        ensures inner { Forks (K.state self.old.inner) parent result (K.state self.new.inner) }
    {
        self.inner.fork(parent)
    }

    fn exit(&mut self, pid: u32) -> Result<(), KernelFault>
        ensures case { Exits (fused self.old.fuse self.old.trace.calls (K.state self.old.inner)) pid result
            (fused self.new.fuse self.new.trace.calls (K.state self.new.inner)) }
        ensures fuse { FollowsTheCount self.old.fuse (fused self.old.fuse self.old.trace.calls (K.state self.old.inner))
            self.new.fuse (fused self.new.fuse self.new.trace.calls (K.state self.new.inner)) }
        ensures unburnt { self.new.fuse ≡ self.old.fuse }
        ensures inner { Exits (K.state self.old.inner) pid result (K.state self.new.inner) }
    {
        self.inner.exit(pid)
    }

    fn offline(&mut self, cpu: u32) -> Result<(), KernelFault>
        ensures case { GoesOffline (fused self.old.fuse self.old.trace.calls (K.state self.old.inner)) cpu result
            (fused self.new.fuse self.new.trace.calls (K.state self.new.inner)) }
        ensures fuse { FollowsTheCount self.old.fuse (fused self.old.fuse self.old.trace.calls (K.state self.old.inner))
            self.new.fuse (fused self.new.fuse self.new.trace.calls (K.state self.new.inner)) }
        ensures unburnt { self.new.fuse ≡ self.old.fuse }
        ensures inner { GoesOffline (K.state self.old.inner) cpu result (K.state self.new.inner) }
    {
        self.inner.offline(cpu)
    }

    fn online_cpu(&mut self, cpu: u32) -> Result<(), KernelFault>
        ensures case { ComesOnline (fused self.old.fuse self.old.trace.calls (K.state self.old.inner)) cpu result
            (fused self.new.fuse self.new.trace.calls (K.state self.new.inner)) }
        ensures fuse { FollowsTheCount self.old.fuse (fused self.old.fuse self.old.trace.calls (K.state self.old.inner))
            self.new.fuse (fused self.new.fuse self.new.trace.calls (K.state self.new.inner)) }
        ensures unburnt { self.new.fuse ≡ self.old.fuse }
        ensures inner { ComesOnline (K.state self.old.inner) cpu result (K.state self.new.inner) }
    {
        self.inner.online_cpu(cpu)
    }
}
