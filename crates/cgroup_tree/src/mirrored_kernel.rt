//! The kernel whose writes are made in a tree first, as callers see it.
ghost use Rattle.std.specs.Prelude.{◌≡◌, ◌+◌, ◌≤◌, ◌++◌, [], length, string_bytes};
ghost use Rattle.std.specs.String.{string_capacity};
ghost use Rattle.cpuset_tree.specs.Places.{place_of};
ghost use Rattle.cpuset_tree.specs.Effective.{effective_cpus, granted};
ghost use Rattle.kernel_model.specs.Cases.{MakesGroup, RemovesGroup, WritesCpus, WritesMems, EndsGroup};
ghost use Rattle.cgroup_tree.specs.Asked.{Compared, Made, Removed, Unmade, Written};
ghost use Rattle.cgroup_tree.specs.Events.{IsMirrored};
ghost use Rattle.cgroup_tree.specs.Site.{Begins, opening};
ghost use Rattle.cgroup_tree.specs.Stands.{FilesStand};
ghost use Rattle.cgroup_tree.specs.Mirrored.{mirrored, Mirrors, MirrorsAt, MirrorsBoth};
ghost use Rattle.cgroup_tree.specs.Mirrored.{IsNamed, MirrorsLooks, looks_behind};
ghost use Rattle.cgroup_tree.specs.Paths.{folder, below, list_line, cpus_file, mems_file, kill_file, controls_file};
ghost use Rattle.cgroup_tree.specs.Paths.{cpus_in_effect, kill_line, controls_line};

use crate::mirror::Mirror;
use crate::room::{FILE_ROOM, LINE_ROOM, Room};
use crate::{GroupFiles, Sited};
use cpu_set::IdSet;
use faults::OrMemory;
use kernel_model::{Group, Kernel, KernelFault, ModelKernel};
use std::marker::{Model, PhantomData};

/// A modelled kernel whose writes are made in a cgroup v2 tree first.
///
/// A write that the model would refuse is asked of nobody. Each other is asked for once, and where that is refused the
/// call is a write that failed: the model is as it was. A group that is made fails so too where memory is short for its
/// path; no other call takes memory. A first process is made in
/// the model alone.
///
/// At each time all that was asked of the files is what the calls of this kernel stand for, in their order, from its
/// beginning on; and where files do what they answer and nobody else writes, each group's files have what it requests.
/// Its root, its nodes with memory, how its files were opened and how it began are those that `S` stands for.
#[derive(Drop)]
pub struct MirroredKernel<F: GroupFiles, S: Sited> {
    mirror: Mirror<F>,
    site: PhantomData<S>,
}

impl<F: GroupFiles, S: Sited> Model for MirroredKernel<F, S> {
    ghost use Rattle.std.specs.Prelude.{string_bytes};
    ghost use Rattle.cgroup_tree.specs.KernelView.{KernelView, kernel_view_code};

    ghost Value = { KernelView F };

    ghost coded = { kernel_view_code F.code };

    ghost use Rattle.cgroup_tree.specs.Mirrored.{mirrored};
    ghost use Rattle.cgroup_tree.specs.Events.{IsMirroredAt};
    ghost use Rattle.std.specs.Prelude.{◌≤◌};
    ghost use Rattle.std.specs.String.{string_capacity};
    ghost use Rattle.cgroup_tree.specs.Room.{HasRoom};
    ghost use Rattle.cgroup_tree.specs.declared.room.TheConstants.{LINE_ROOM};

    ghost view = { λ k. record {
      root = string_bytes k.mirror.root;
      memory = k.mirror.memory;
      partition = k.mirror.partition;
      inner = k.mirror.inner;
      trace = k.mirror.trace.calls;
      files = k.mirror.files;
    } };

    ghost invariant = { λ k. IsMirroredAt F.asked S.site (string_bytes k.mirror.root) k.mirror.memory
        k.mirror.partition (mirrored k.mirror.trace.calls k.mirror.inner) k.mirror.files
        × HasRoom (string_capacity k.mirror.room.path) (string_bytes k.mirror.root) k.mirror.inner.tree
        × (LINE_ROOM ≤ string_capacity k.mirror.room.line) };
}

impl<F: GroupFiles, S: Sited> MirroredKernel<F, S> {
    /// The kernel over these files, of which nothing was asked yet, the root group's folder at this path; with room in
    /// which its paths and lines are made. With `partition` the root has to be a partition root: behind each write of
    /// CPUs it is looked at whether it still is.
    pub fn new(
        inner: ModelKernel,
        root: String,
        memory: IdSet,
        partition: bool,
        files: F,
        room: Room,
    ) -> MirroredKernel<F, S>
        requires first { Begins S.site.first inner }
        requires root { string_bytes root ≡ S.site.root }
        requires memory { memory ≡ S.site.memory }
        requires partition { partition ≡ S.site.partition }
        requires unasked { F.asked files (opening S.site) [] }
        requires path { length (string_bytes root) + FILE_ROOM ≤ string_capacity room.path }
        requires line { LINE_ROOM ≤ string_capacity room.line }
        ensures inner { result.inner ≡ inner }
        ensures root { result.root ≡ string_bytes root }
        ensures memory { result.memory ≡ memory }
        ensures partition { result.partition ≡ partition }
        ensures files { result.files ≡ files }
        ensures trace { result.trace ≡ [] }
    {
        inner.root();
        MirroredKernel {
            mirror: Mirror::new(inner, root, memory, partition, files, room),
            site: PhantomData,
        }
    }

    /// All that was asked of the files is what the calls of this kernel stand for, in their order; nothing runs.
    pub fn is_mirrored(&self)
        ensures mirrored { IsMirrored F.asked S.site (mirrored self.now.trace self.now.inner) self.now.files }
        ensures root { self.now.root ≡ S.site.root }
        ensures memory { self.now.memory ≡ S.site.memory }
        ensures partition { self.now.partition ≡ S.site.partition }
    {
        let _ = &self.mirror;
    }

    /// Each group's files have what it requests, if files do what they answer and nobody else writes; nothing runs.
    pub fn files_stand(&self)
        ensures { FilesStand F.asked S.site (mirrored self.now.trace self.now.inner) self.now.files }
    {
        self.is_mirrored();
    }

    /// The files, handed back once the kernel is done with.
    pub fn into_files(self) -> F
        ensures { result ≡ self.files }
    {
        self.mirror.files
    }
}

impl<F: GroupFiles, S: Sited> Kernel for MirroredKernel<F, S> {
    ghost state = { λ k. mirrored k.trace k.inner };

    fn make_group(&mut self, parent: Group, name: &str) -> Result<Group, OrMemory<KernelFault>>
        ensures case { MakesGroup (mirrored self.old.trace self.old.inner) parent name.now result
            (mirrored self.new.trace self.new.inner) }
        ensures asks { MirrorsBoth F.asked self.old.files name.now
            (Written (self.old.root ++ (folder self.old.inner.tree parent ++ controls_file)) controls_line)
            (Made (self.old.root ++ (folder self.old.inner.tree parent ++ below name.now)))
            (Unmade (self.old.root ++ (folder self.old.inner.tree parent ++ below name.now))) result self.new.files }
        ensures named { IsNamed name.now result }
    {
        self.mirror.make_group(parent, name)
    }

    fn remove_group(&mut self, group: Group) -> Result<(), KernelFault>
        ensures case { RemovesGroup (mirrored self.old.trace self.old.inner) group result
            (mirrored self.new.trace self.new.inner) }
        ensures asks { Mirrors F.asked self.old.files
            (Removed (self.old.root ++ (folder self.old.inner.tree group ++ []))) result self.new.files }
    {
        self.mirror.remove_group(group)
    }

    fn write_cpus(&mut self, group: Group, cpus: IdSet) -> Result<(), KernelFault>
        ensures case { WritesCpus (mirrored self.old.trace self.old.inner) group cpus result
            (mirrored self.new.trace self.new.inner) }
        ensures asks { MirrorsLooks F.asked self.old.files
            (Written (self.old.root ++ (folder self.old.inner.tree group ++ cpus_file)) (list_line cpus))
            (looks_behind self.old.partition self.old.root
            (Compared (self.old.root ++ (folder self.new.inner.tree group ++ cpus_in_effect))
            (list_line (effective_cpus self.new.inner.tree group)))) result self.new.files }
    {
        self.mirror.write_cpus(group, cpus)
    }

    fn write_mems(&mut self, group: Group, mems: IdSet) -> Result<(), KernelFault>
        ensures case { WritesMems (mirrored self.old.trace self.old.inner) group mems result
            (mirrored self.new.trace self.new.inner) }
        ensures asks { Mirrors F.asked self.old.files
            (Written (self.old.root ++ (folder self.old.inner.tree group
            ++ mems_file)) (list_line (granted mems self.old.memory))) result self.new.files }
    {
        self.mirror.write_mems(group, mems)
    }

    fn spawn(&mut self, group: Group) -> Result<u32, OrMemory<KernelFault>> {
        self.mirror.spawn(group)
    }

    /// The root's processes are not ended: its folder has no file for that.
    fn end_group(&mut self, group: Group) -> Result<(), KernelFault>
        ensures case { EndsGroup (mirrored self.old.trace self.old.inner) group result
            (mirrored self.new.trace self.new.inner) }
        ensures asks { MirrorsAt F.asked self.old.files (place_of self.old.inner.tree group) self.old.root
            (Written (self.old.root ++ (folder self.old.inner.tree group ++ kill_file)) kill_line) result
            self.new.files }
    {
        self.mirror.end_group(group)
    }

    fn root(&self) -> Group {
        self.mirror.inner.root()
    }

    fn find_group(&self, parent: Group, name: &str) -> Result<Option<Group>, KernelFault> {
        self.mirror.inner.find_group(parent, name)
    }

    fn makable(&self, parent: Group, name: &str) -> Result<(), KernelFault> {
        self.mirror.inner.makable(parent, name)
    }

    fn has_pids(&self) -> bool {
        self.mirror.inner.has_pids()
    }

    fn requested_cpus(&self, group: Group) -> Result<&IdSet, KernelFault> {
        self.mirror.inner.requested_cpus(group)
    }

    fn effective_cpus(&self, group: Group) -> Result<&IdSet, KernelFault> {
        self.mirror.inner.effective_cpus(group)
    }

    fn requested_mems(&self, group: Group) -> Result<&IdSet, KernelFault> {
        self.mirror.inner.requested_mems(group)
    }

    fn effective_mems(&self, group: Group) -> Result<&IdSet, KernelFault> {
        self.mirror.inner.effective_mems(group)
    }

    fn online(&self) -> IdSet {
        self.mirror.inner.online()
    }

    fn nodes(&self) -> IdSet {
        self.mirror.inner.nodes()
    }

    fn first_alive(&self, pid: u32) -> bool {
        self.mirror.inner.first_alive(pid)
    }

    fn fork(&mut self, parent: u32) -> Result<u32, OrMemory<KernelFault>> {
        self.mirror.fork(parent)
    }

    fn exit(&mut self, pid: u32) -> Result<(), KernelFault> {
        self.mirror.exit(pid)
    }

    fn offline(&mut self, cpu: u32) -> Result<(), KernelFault> {
        self.mirror.offline(cpu)
    }

    fn online_cpu(&mut self, cpu: u32) -> Result<(), KernelFault> {
        self.mirror.online_cpu(cpu)
    }
}
