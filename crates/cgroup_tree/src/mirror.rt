//! A kernel and the files of a tree, call by call.
ghost use Rattle.std.specs.Prelude.{◌≡◌, ◌+◌, ◌≤◌, ◌++◌, [], ◌∷◌, IfOk, length, string_bytes, true};
ghost use Rattle.std.specs.String.{string_capacity};
ghost use Rattle.cpuset_tree.specs.Effective.{effective_cpus, granted};
ghost use Rattle.cpuset_tree.specs.Groups.{has_group};
ghost use Rattle.cpuset_tree.specs.Places.{place_of};
ghost use Rattle.kernel_model.specs.declared.KernelFault.TheVariants.{Failed};
ghost use Rattle.kernel_model.specs.Told.{told};
ghost use Rattle.kernel_model.specs.Cases.{MakesGroup, RemovesGroup, WritesCpus, WritesMems, Spawns, EndsGroup, Forks};
ghost use Rattle.kernel_model.specs.Cases.{Exits, GoesOffline, ComesOnline};
ghost use Rattle.cgroup_tree.specs.Asked.{Asks, Compared, Made, Removed, Unmade, Written};
ghost use Rattle.cgroup_tree.specs.Mirrored.{mirrored, Mirrors, MirrorsAt, MirrorsBoth};
ghost use Rattle.cgroup_tree.specs.Mirrored.{AsksLooks, IsNamed, MirrorsLooks, looked, looks_behind};
ghost use Rattle.cgroup_tree.specs.Room.{HasRoom};
ghost use Rattle.cgroup_tree.specs.Paths.{folder, below, list_line, cpus_file, mems_file, kill_file, controls_file};
ghost use Rattle.cgroup_tree.specs.Paths.{cpus_in_effect, kill_line, controls_line};

use crate::cgroup::{end_all, make_folder, remove_folder};
use crate::cpuset::{compare_list, with_memory, write_list};
use crate::partition::compare_partition;
use crate::paths::{is_name, widen};
use crate::room::{LINE_ROOM, Room};
use crate::{GroupFiles, Unasked, telling};
use cpu_set::IdSet;
use faults::OrMemory;
use kernel_model::{CallMade, Group, Kernel, KernelFault, ModelKernel, Trace};

/// The files of a group (cgroup v2, "Core Interface Files" and "Cpuset Interface Files").
const CPUS_FILE: &str = "/cpuset.cpus";

const MEMS_FILE: &str = "/cpuset.mems";

const CPUS_IN_EFFECT: &str = "/cpuset.cpus.effective";

/// A modelled kernel and the files that its writes are asked of, with nothing known of how they came together.
#[derive(Drop)]
pub struct Mirror<F: GroupFiles> {
    /// The path of the root group's folder.
    pub root: String,
    /// The nodes that have memory.
    pub memory: IdSet,
    /// Whether the root has to be a partition root.
    pub partition: bool,
    /// What each call returns and changes.
    pub inner: ModelKernel,
    /// What the writes are asked of.
    pub files: F,
    /// The writing calls that were made, those that they refused too.
    pub trace: Trace,
    /// Where paths and lines are made.
    pub room: Room,
}

impl<F: GroupFiles> Mirror<F> {
    /// The kernel over these files, the root group's folder at this path.
    pub fn new(
        inner: ModelKernel,
        root: String,
        memory: IdSet,
        partition: bool,
        files: F,
        room: Room,
    ) -> Mirror<F>
        ensures inner { result.inner ≡ inner }
        ensures root { result.root ≡ root }
        ensures memory { result.memory ≡ memory }
        ensures partition { result.partition ≡ partition }
        ensures files { result.files ≡ files }
        ensures trace { result.trace.calls ≡ [] }
        ensures room { result.room ≡ room }
    {
        Mirror {
            root,
            memory,
            partition,
            inner,
            files,
            trace: Trace::none(),
            room,
        }
    }

    /// Tells a writing call that was made.
    fn tell(&mut self, call: &CallMade<'_>)
        ensures told { self.new.trace.calls ≡ told call.now ∷ self.old.trace.calls }
        ensures inner { self.new.inner ≡ self.old.inner }
        ensures root { self.new.root ≡ self.old.root }
        ensures memory { self.new.memory ≡ self.old.memory }
        ensures partition { self.new.partition ≡ self.old.partition }
        ensures files { self.new.files ≡ self.old.files }
        ensures room { self.new.room ≡ self.old.room }
    {
        self.trace = self.trace.then(call);
    }

    /// Tells one that the files refused.
    fn fail(&mut self, call: &CallMade<'_>) -> KernelFault
        ensures fault { result ≡ Failed }
        ensures told { self.new.trace.calls ≡ told call.now ∷ self.old.trace.calls }
        ensures inner { self.new.inner ≡ self.old.inner }
        ensures root { self.new.root ≡ self.old.root }
        ensures memory { self.new.memory ≡ self.old.memory }
        ensures partition { self.new.partition ≡ self.old.partition }
        ensures files { self.new.files ≡ self.old.files }
        ensures room { self.new.room ≡ self.old.room }
    {
        self.tell(call);
        KernelFault::Failed
    }

    /// Makes a group in the model.
    fn make_in_model(&mut self, parent: Group, name: &str) -> Result<Group, OrMemory<KernelFault>>
        ensures case { MakesGroup (mirrored self.old.trace.calls self.old.inner) parent name.now result
            (mirrored self.new.trace.calls self.new.inner) }
        ensures model { MakesGroup self.old.inner parent name.now result self.new.inner }
        ensures never_fails { self.new.inner.failures ≡ 0 }
        ensures root { self.new.root ≡ self.old.root }
        ensures memory { self.new.memory ≡ self.old.memory }
        ensures partition { self.new.partition ≡ self.old.partition }
        ensures files { self.new.files ≡ self.old.files }
        ensures room { self.new.room ≡ self.old.room }
    {
        let answer = self.inner.make_group(parent, name);
        self.tell(&CallMade::Group(parent, name, answer));
        answer
    }

    /// Makes a group, once the files have made its folder; that is removed again where its allocation in the model
    /// fails. Room for its paths is taken first: all that is written of it later takes no memory.
    pub fn make_group(&mut self, parent: Group, name: &str) -> Result<Group, OrMemory<KernelFault>>
        requires path { HasRoom (string_capacity self.old.room.path) (string_bytes self.old.root) self.old.inner.tree }
        ensures case { MakesGroup (mirrored self.old.trace.calls self.old.inner) parent name.now result
            (mirrored self.new.trace.calls self.new.inner) }
        ensures asks { MirrorsBoth F.asked self.old.files name.now
            (Written (string_bytes self.old.root ++ (folder self.old.inner.tree parent ++ controls_file)) controls_line)
            (Made (string_bytes self.old.root ++ (folder self.old.inner.tree parent ++ below name.now)))
            (Unmade (string_bytes self.old.root ++ (folder self.old.inner.tree parent ++ below name.now))) result
            self.new.files }
        ensures same { (self.new.root ≡ self.old.root) × (self.new.memory ≡ self.old.memory)
            × (self.new.partition ≡ self.old.partition) }
        ensures named { IsNamed name.now result }
        ensures wide { IfOk result (λ _. length (string_bytes self.old.root)
            + (length (folder self.old.inner.tree parent) + (length name.now + 25))
            ≤ string_capacity self.new.room.path) }
        ensures wider { (string_capacity self.old.room.path ≤ string_capacity self.new.room.path)
            × (string_capacity self.old.room.line ≤ string_capacity self.new.room.line) }
    {
        if self.inner.makable(parent, name).is_err() {
            return self.make_in_model(parent, name);
        }
        let failed = CallMade::Group(parent, name, Err(OrMemory::Fault(KernelFault::Failed)));
        if !is_name(name.as_bytes()) {
            self.files.tell_unasked(name, Unasked::NoName);
            return Err(OrMemory::Fault(self.fail(&failed)));
        }
        let (root, kernel) = (self.root.as_str(), &self.inner);
        if widen(&mut self.room.path, root, kernel, parent, name).is_err() {
            self.files.tell_unasked(name, Unasked::NoRoom);
            return Err(OrMemory::Fault(self.fail(&failed)));
        }
        if make_folder(&mut self.files, &mut self.room, root, kernel, parent, name).is_err() {
            return Err(OrMemory::Fault(self.fail(&failed)));
        }
        let answer = self.make_in_model(parent, name);
        if let Err(OrMemory::Memory) = answer {
            let _ = telling::unmake(&mut self.files, self.room.path.as_str());
        }
        answer
    }

    /// Removes a group, once the files have removed its folder.
    pub fn remove_group(&mut self, group: Group) -> Result<(), KernelFault>
        requires path { HasRoom (string_capacity self.old.room.path) (string_bytes self.old.root) self.old.inner.tree }
        ensures case { RemovesGroup (mirrored self.old.trace.calls self.old.inner) group result
            (mirrored self.new.trace.calls self.new.inner) }
        ensures asks { Mirrors F.asked self.old.files
            (Removed (string_bytes self.old.root ++ (folder self.old.inner.tree group ++ []))) result self.new.files }
        ensures same { (self.new.root ≡ self.old.root) × (self.new.memory ≡ self.old.memory)
            × (self.new.partition ≡ self.old.partition) }
        ensures wider { (string_capacity self.old.room.path ≤ string_capacity self.new.room.path)
            × (string_capacity self.old.room.line ≤ string_capacity self.new.room.line) }
    {
        if self.inner.removable(group).is_ok() {
            let (root, kernel) = (self.root.as_str(), &self.inner);
            if remove_folder(&mut self.files, &mut self.room, root, kernel, group).is_err() {
                return Err(self.fail(&CallMade::Removal(group, Err(KernelFault::Failed))));
            }
        }
        let answer = self.inner.remove_group(group);
        self.tell(&CallMade::Removal(group, answer));
        answer
    }

    /// Writes what a group requests of CPUs, and looks whether it has them in effect; and whether the root is still a
    /// partition root, if it has to be one.
    pub fn write_cpus(&mut self, group: Group, cpus: IdSet) -> Result<(), KernelFault>
        requires path { HasRoom (string_capacity self.old.room.path) (string_bytes self.old.root) self.old.inner.tree }
        requires line { LINE_ROOM ≤ string_capacity self.old.room.line }
        ensures case { WritesCpus (mirrored self.old.trace.calls self.old.inner) group cpus result
            (mirrored self.new.trace.calls self.new.inner) }
        ensures asks { MirrorsLooks F.asked self.old.files
            (Written (string_bytes self.old.root
            ++ (folder self.old.inner.tree group ++ cpus_file)) (list_line cpus))
            (looks_behind self.old.partition (string_bytes self.old.root)
            (Compared (string_bytes self.old.root ++ (folder self.new.inner.tree group ++ cpus_in_effect))
            (list_line (effective_cpus self.new.inner.tree group)))) result self.new.files }
        ensures same { (self.new.root ≡ self.old.root) × (self.new.memory ≡ self.old.memory)
            × (self.new.partition ≡ self.old.partition) }
        ensures wider { (string_capacity self.old.room.path ≤ string_capacity self.new.room.path)
            × (string_capacity self.old.room.line ≤ string_capacity self.new.room.line) }
    {
        let (root, kernel) = (self.root.as_str(), &self.inner);
        let asked = write_list(
            &mut self.files,
            &mut self.room,
            root,
            kernel,
            group,
            CPUS_FILE,
            &cpus,
        );
        if asked.is_err() {
            return Err(self.fail(&CallMade::Cpus(group, &cpus, Err(KernelFault::Failed))));
        }
        let answer = self.inner.write_cpus(group, cpus);
        self.tell(&CallMade::Cpus(group, &cpus, answer));
        if answer.is_ok() {
            self.look(group);
        }
        answer
    }

    /// Looks whether a group has in effect the CPUs that the model says. Looks whether the root is still a partition
    /// root, if it has to be one.
    fn look(&mut self, group: Group)
        requires path { HasRoom (string_capacity self.old.room.path) (string_bytes self.old.root) self.old.inner.tree }
        requires line { LINE_ROOM ≤ string_capacity self.old.room.line }
        requires there { has_group self.old.inner.tree group ≡ true }
        ensures looks { AsksLooks F.asked self.old.files self.old.partition (string_bytes self.old.root)
            (Compared (string_bytes self.old.root ++ (folder self.old.inner.tree group ++ cpus_in_effect))
            (list_line (effective_cpus self.old.inner.tree group))) self.new.files }
        ensures same { (self.new.root ≡ self.old.root) × (self.new.memory ≡ self.old.memory)
            × (self.new.partition ≡ self.old.partition) }
        ensures model { (self.new.inner ≡ self.old.inner) × (self.new.trace ≡ self.old.trace) }
        ensures wider { (string_capacity self.old.room.path ≤ string_capacity self.new.room.path)
            × (string_capacity self.old.room.line ≤ string_capacity self.new.room.line) }
    {
        self.look_at_cpus(group);
        if self.partition {
            compare_partition(&mut self.files, &mut self.room, self.root.as_str());
        }
    }

    /// Looks whether a group has in effect the CPUs that the model says.
    fn look_at_cpus(&mut self, group: Group) -> bool
        requires path { HasRoom (string_capacity self.old.room.path) (string_bytes self.old.root) self.old.inner.tree }
        requires line { LINE_ROOM ≤ string_capacity self.old.room.line }
        requires there { has_group self.old.inner.tree group ≡ true }
        ensures looks { Asks F.asked self.old.files (looked (Compared (string_bytes self.old.root
            ++ (folder self.old.inner.tree group ++ cpus_in_effect))
            (list_line (effective_cpus self.old.inner.tree group))) result) self.new.files }
        ensures same { (self.new.root ≡ self.old.root) × (self.new.memory ≡ self.old.memory)
            × (self.new.partition ≡ self.old.partition) }
        ensures model { (self.new.inner ≡ self.old.inner) × (self.new.trace ≡ self.old.trace) }
        ensures wider { (string_capacity self.old.room.path ≤ string_capacity self.new.room.path)
            × (string_capacity self.old.room.line ≤ string_capacity self.new.room.line) }
    {
        let Ok(ids) = self.inner.effective_cpus(group) else {
            unreachable!()
        };
        compare_list(
            &mut self.files,
            &mut self.room,
            self.root.as_str(),
            &self.inner,
            group,
            CPUS_IN_EFFECT,
            ids,
        )
    }

    /// Writes what a group requests of nodes, of which the files get those that have memory.
    pub fn write_mems(&mut self, group: Group, mems: IdSet) -> Result<(), KernelFault>
        requires path { HasRoom (string_capacity self.old.room.path) (string_bytes self.old.root) self.old.inner.tree }
        requires line { LINE_ROOM ≤ string_capacity self.old.room.line }
        ensures case { WritesMems (mirrored self.old.trace.calls self.old.inner) group mems result
            (mirrored self.new.trace.calls self.new.inner) }
        ensures asks { Mirrors F.asked self.old.files
            (Written (string_bytes self.old.root
            ++ (folder self.old.inner.tree group ++ mems_file)) (list_line (granted mems self.old.memory))) result
            self.new.files }
        ensures same { (self.new.root ≡ self.old.root) × (self.new.memory ≡ self.old.memory)
            × (self.new.partition ≡ self.old.partition) }
        ensures wider { (string_capacity self.old.room.path ≤ string_capacity self.new.room.path)
            × (string_capacity self.old.room.line ≤ string_capacity self.new.room.line) }
    {
        let (root, kernel) = (self.root.as_str(), &self.inner);
        let nodes = with_memory(&mems, &self.memory);
        let asked = write_list(
            &mut self.files,
            &mut self.room,
            root,
            kernel,
            group,
            MEMS_FILE,
            &nodes,
        );
        if asked.is_err() {
            return Err(self.fail(&CallMade::Mems(group, &mems, Err(KernelFault::Failed))));
        }
        let answer = self.inner.write_mems(group, mems);
        self.tell(&CallMade::Mems(group, &mems, answer));
        answer
    }

    /// A first process, of which nothing is asked.
    pub fn spawn(&mut self, group: Group) -> Result<u32, OrMemory<KernelFault>>
        ensures case { Spawns (mirrored self.old.trace.calls self.old.inner) group result
            (mirrored self.new.trace.calls self.new.inner) }
        ensures same { (self.new.root ≡ self.old.root) × (self.new.memory ≡ self.old.memory)
            × (self.new.partition ≡ self.old.partition) }
        ensures files { self.new.files ≡ self.old.files }
        ensures room { self.new.room ≡ self.old.room }
    {
        let answer = self.inner.spawn(group);
        self.tell(&CallMade::Process(group, answer));
        answer
    }

    /// Ends a group's processes. Those of the root are left: its folder has no file for that.
    pub fn end_group(&mut self, group: Group) -> Result<(), KernelFault>
        requires path { HasRoom (string_capacity self.old.room.path) (string_bytes self.old.root) self.old.inner.tree }
        ensures case { EndsGroup (mirrored self.old.trace.calls self.old.inner) group result
            (mirrored self.new.trace.calls self.new.inner) }
        ensures asks { MirrorsAt F.asked self.old.files (place_of self.old.inner.tree group)
            (string_bytes self.old.root) (Written (string_bytes self.old.root
            ++ (folder self.old.inner.tree group ++ kill_file)) kill_line) result self.new.files }
        ensures same { (self.new.root ≡ self.old.root) × (self.new.memory ≡ self.old.memory)
            × (self.new.partition ≡ self.old.partition) }
        ensures wider { (string_capacity self.old.room.path ≤ string_capacity self.new.room.path)
            × (string_capacity self.old.room.line ≤ string_capacity self.new.room.line) }
    {
        if self.inner.requested_cpus(group).is_err() {
            return self.end_in_model(group);
        }
        let failed = CallMade::End(group, Err(KernelFault::Failed));
        let (root, kernel) = (self.root.as_str(), &self.inner);
        if kernel.place(group).is_none() {
            self.files.tell_unasked(root, Unasked::Root);
            return Err(self.fail(&failed));
        }
        if end_all(&mut self.files, &mut self.room, root, kernel, group).is_err() {
            return Err(self.fail(&failed));
        }
        self.end_in_model(group)
    }

    /// Ends a group's processes in the model.
    fn end_in_model(&mut self, group: Group) -> Result<(), KernelFault>
        ensures case { EndsGroup (mirrored self.old.trace.calls self.old.inner) group result
            (mirrored self.new.trace.calls self.new.inner) }
        ensures model { EndsGroup self.old.inner group result self.new.inner }
        ensures never_fails { self.new.inner.failures ≡ 0 }
        ensures root { self.new.root ≡ self.old.root }
        ensures memory { self.new.memory ≡ self.old.memory }
        ensures partition { self.new.partition ≡ self.old.partition }
        ensures files { self.new.files ≡ self.old.files }
        ensures room { self.new.room ≡ self.old.room }
    {
        let answer = self.inner.end_group(group);
        self.tell(&CallMade::End(group, answer));
        answer
    }

    /// A process forks; nothing is asked.
    pub fn fork(&mut self, parent: u32) -> Result<u32, OrMemory<KernelFault>>
        ensures case { Forks (mirrored self.old.trace.calls self.old.inner) parent result
            (mirrored self.new.trace.calls self.new.inner) }
        ensures same { (self.new.root ≡ self.old.root) × (self.new.memory ≡ self.old.memory)
            × (self.new.partition ≡ self.old.partition) }
        ensures files { self.new.files ≡ self.old.files }
        ensures room { self.new.room ≡ self.old.room }
    {
        self.inner.fork(parent)
    }

    /// A process ends; nothing is asked.
    pub fn exit(&mut self, pid: u32) -> Result<(), KernelFault>
        ensures case { Exits (mirrored self.old.trace.calls self.old.inner) pid result
            (mirrored self.new.trace.calls self.new.inner) }
        ensures same { (self.new.root ≡ self.old.root) × (self.new.memory ≡ self.old.memory)
            × (self.new.partition ≡ self.old.partition) }
        ensures files { self.new.files ≡ self.old.files }
        ensures room { self.new.room ≡ self.old.room }
    {
        self.inner.exit(pid)
    }

    /// A CPU goes offline; nothing is asked.
    pub fn offline(&mut self, cpu: u32) -> Result<(), KernelFault>
        ensures case { GoesOffline (mirrored self.old.trace.calls self.old.inner) cpu result
            (mirrored self.new.trace.calls self.new.inner) }
        ensures same { (self.new.root ≡ self.old.root) × (self.new.memory ≡ self.old.memory)
            × (self.new.partition ≡ self.old.partition) }
        ensures files { self.new.files ≡ self.old.files }
        ensures room { self.new.room ≡ self.old.room }
    {
        self.inner.offline(cpu)
    }

    /// A CPU comes online; nothing is asked.
    pub fn online_cpu(&mut self, cpu: u32) -> Result<(), KernelFault>
        ensures case { ComesOnline (mirrored self.old.trace.calls self.old.inner) cpu result
            (mirrored self.new.trace.calls self.new.inner) }
        ensures same { (self.new.root ≡ self.old.root) × (self.new.memory ≡ self.old.memory)
            × (self.new.partition ≡ self.old.partition) }
        ensures files { self.new.files ≡ self.old.files }
        ensures room { self.new.room ≡ self.old.room }
    {
        self.inner.online_cpu(cpu)
    }
}
