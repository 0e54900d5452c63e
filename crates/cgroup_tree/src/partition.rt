//! The file by which a group is a partition root, whose CPUs the kernel keeps all groups outside from.
ghost use Rattle.std.specs.Prelude.{◌≡◌, ◌↔◌, ◌+◌, ◌≤◌, ◌++◌, IsTrue, OnOk, length, true};
ghost use Rattle.std.specs.String.{string_capacity};
ghost use Rattle.cgroup_tree.specs.Asked.{Asks, AsksSome, Compared};
ghost use Rattle.cgroup_tree.specs.Mirrored.{looked};
ghost use Rattle.cgroup_tree.specs.Paths.{partition_file, partition_line};
ghost use Rattle.cgroup_tree.specs.Roots.{LooksAtPartition, PartitionTells};

use crate::paths::{path_below, push_within};
use crate::room::{FILE_ROOM, Room};
use crate::{Difference, GroupFiles, GroupTrees, RootFault, telling};
use std::alloc::Global;

/// The file's name (cgroup v2, "Cpuset Interface Files").
pub const PARTITION_FILE: &str = "/cpuset.cpus.partition";

/// What the file of a valid partition root has, whose load the scheduler balances.
pub const PARTITION_LINE: &str = "root\n";

/// Looks whether a root is a partition root, if it has to be one.
pub fn look_at_partition<T: GroupTrees>(
    alloc: Global,
    trees: &mut T,
    root: &str,
    partition: bool,
) -> Result<(), RootFault>
    ensures looks { LooksAtPartition (T.finds trees.old) root.now partition result }
    ensures tells { AsksSome T.asked trees.old (PartitionTells (T.finds trees.old) root.now result) trees.new }
    ensures same { OnOk result (trees.new ≡ trees.old) }
{
    if partition {
        look_at_file(alloc, trees, root)
    } else {
        Ok(())
    }
}

/// The same of one that has to be. If it is none, the operator is told what its file has, or that there is none.
fn look_at_file<T: GroupTrees>(alloc: Global, trees: &mut T, root: &str) -> Result<(), RootFault>
    ensures looks { LooksAtPartition (T.finds trees.old) root.now true result }
    ensures tells { AsksSome T.asked trees.old (PartitionTells (T.finds trees.old) root.now result) trees.new }
    ensures same { OnOk result (trees.new ≡ trees.old) }
{
    let path = path_below(alloc, root, PARTITION_FILE)?;
    let Some(text) = trees.read(alloc, path.as_str())? else {
        trees.tell(path.as_str(), Difference::Absent);
        return Err(RootFault::NoPartition);
    };
    if is_partition_line(text.as_slice()) {
        return Ok(());
    }
    trees.tell(path.as_str(), Difference::Holds(text.as_slice()));
    Err(RootFault::NoPartition)
}

/// Looks whether a root is still a partition root.
pub fn compare_partition<F: GroupFiles>(files: &mut F, room: &mut Room, root: &str) -> bool
    requires path { length root.now + FILE_ROOM ≤ string_capacity room.old.path }
    ensures looks { Asks F.asked files.old
        (looked (Compared (root.now ++ partition_file) partition_line) result) files.new }
    ensures wider { (string_capacity room.old.path ≤ string_capacity room.new.path)
        × (room.new.line ≡ room.old.line) }
{
    room.path.clear();
    push_within(&mut room.path, root);
    push_within(&mut room.path, PARTITION_FILE);
    telling::compare(files, room.path.as_str(), PARTITION_LINE.as_bytes())
}

/// Whether this is the text of a valid partition root.
fn is_partition_line(text: &[u8]) -> bool
    ensures { IsTrue result ↔ (text.now ≡ partition_line) }
{
    text == PARTITION_LINE.as_bytes()
}
