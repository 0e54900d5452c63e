//! Calls of a kernel as values, of which laws over lists of calls speak. `numarun` makes each call directly; the crate
//! `kernel_doubles` makes calls of such lists.

use cpu_set::IdSet;
use cpuset_tree::Group;

/// A call of a kernel, as a value. The two tests of a kernel, `makable` and `has_pids`, are none.
#[derive(Debug, Drop)]
pub enum Call {
    MakeGroup(Group, String),
    RemoveGroup(Group),
    WriteCpus(Group, IdSet),
    WriteMems(Group, IdSet),
    Spawn(Group),
    EndGroup(Group),
    Root,
    FindGroup(Group, String),
    RequestedCpus(Group),
    EffectiveCpus(Group),
    RequestedMems(Group),
    EffectiveMems(Group),
    Online,
    Nodes,
    FirstAlive(u32),
    Fork(u32),
    Exit(u32),
    Offline(u32),
    OnlineCpu(u32),
}

/// What a call that was not refused answered.
#[derive(Clone, Copy, Debug, PartialEq, Eq)]
pub enum Reply {
    Done,
    Group(Group),
    Found(Option<Group>),
    Pid(u32),
    Ids(IdSet),
    Alive(bool),
}
