//! The files of the kernel's interface that are called `cpuset.*`.
ghost use Rattle.std.specs.Prelude.{◌≡◌, ◌≤◌, ◌++◌, length};
ghost use Rattle.std.specs.String.{string_capacity};
ghost use Rattle.cpuset_tree.specs.Effective.{granted};
ghost use Rattle.cpuset_tree.specs.Places.{place_of};
ghost use Rattle.cgroup_tree.specs.Asked.{Asks, Compared, Written};
ghost use Rattle.cgroup_tree.specs.Mirrored.{TriesWhere, looked};
ghost use Rattle.cgroup_tree.specs.Paths.{folder, list_line};
ghost use Rattle.cgroup_tree.specs.Room.{HasRoom};

use crate::line::write_line;
use crate::paths::write_path;
use crate::room::{FILE_ROOM, LINE_ROOM, Room};
use crate::{GroupFiles, telling};
use cpu_set::IdSet;
use kernel_model::{Group, ModelKernel};
use std::io;

/// Those of some nodes that have memory, or all that have where none of them has.
pub fn with_memory(mems: &IdSet, memory: &IdSet) -> IdSet
    ensures { result ≡ granted mems.now memory.now }
{
    let both = mems.meet(memory);
    if both.is_empty() { *memory } else { both }
}

/// Writes a set into a file of a group, where the group is there and not the root.
pub fn write_list<F: GroupFiles>(
    files: &mut F,
    room: &mut Room,
    root: &str,
    kernel: &ModelKernel,
    group: Group,
    file: &str,
    ids: &IdSet,
) -> io::Result<()>
    requires name { length file.now ≤ FILE_ROOM }
    requires path { HasRoom (string_capacity room.old.path) root.now kernel.now.tree }
    requires line { LINE_ROOM ≤ string_capacity room.old.line }
    ensures tries { TriesWhere F.asked files.old (place_of kernel.now.tree group)
        (Written (root.now ++ (folder kernel.now.tree group ++ file.now)) (list_line ids.now)) result files.new }
    ensures wider { (string_capacity room.old.path ≤ string_capacity room.new.path)
        × (string_capacity room.old.line ≤ string_capacity room.new.line) }
{
    if kernel.place(group).is_none() {
        return Ok(());
    }
    write_path(&mut room.path, root, kernel, group, file);
    write_line(&mut room.line, ids);
    telling::write(files, room.path.as_str(), room.line.as_bytes())
}

/// Looks whether a file of a group has this set.
pub fn compare_list<F: GroupFiles>(
    files: &mut F,
    room: &mut Room,
    root: &str,
    kernel: &ModelKernel,
    group: Group,
    file: &str,
    ids: &IdSet,
) -> bool
    requires name { length file.now ≤ FILE_ROOM }
    requires path { HasRoom (string_capacity room.old.path) root.now kernel.now.tree }
    requires line { LINE_ROOM ≤ string_capacity room.old.line }
    ensures looks { Asks F.asked files.old (looked (Compared (root.now ++ (folder kernel.now.tree group ++ file.now))
        (list_line ids.now)) result) files.new }
    ensures wider { (string_capacity room.old.path ≤ string_capacity room.new.path)
        × (string_capacity room.old.line ≤ string_capacity room.new.line) }
{
    write_path(&mut room.path, root, kernel, group, file);
    write_line(&mut room.line, ids);
    telling::compare(files, room.path.as_str(), room.line.as_bytes())
}
