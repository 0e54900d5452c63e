//! Folders of groups, and the files of the kernel's interface that are called `cgroup.*`.
ghost use Rattle.std.specs.Prelude.{◌≡◌, ◌+◌, ◌≤◌, ◌++◌, [], OnOk, length, string_bytes};
ghost use Rattle.std.specs.String.{string_capacity};
ghost use Rattle.cgroup_tree.specs.Asked.{Made, Removed, Written};
ghost use Rattle.cgroup_tree.specs.Mirrored.{Tries, TriesBoth};
ghost use Rattle.cgroup_tree.specs.Paths.{folder, below, controls_file, controls_line, kill_file, kill_line};
ghost use Rattle.cgroup_tree.specs.Room.{HasRoom};

use crate::paths::{write_path, write_path_below};
use crate::room::Room;
use crate::{GroupFiles, telling};
use kernel_model::{Group, ModelKernel};
use std::io;

/// By this file of a folder the groups below get a controller (cgroup v2, "Core Interface Files").
const CONTROLS_FILE: &str = "/cgroup.subtree_control";

const CONTROLS_LINE: &str = "+cpuset\n";

/// By this one all its processes are ended.
const KILL_FILE: &str = "/cgroup.kill";

const KILL_LINE: &str = "1\n";

/// Ends all processes of a group.
pub fn end_all<F: GroupFiles>(
    files: &mut F,
    room: &mut Room,
    root: &str,
    kernel: &ModelKernel,
    group: Group,
) -> io::Result<()>
    requires path { HasRoom (string_capacity room.old.path) root.now kernel.now.tree }
    ensures tries { Tries F.asked files.old (Written (root.now
        ++ (folder kernel.now.tree group ++ kill_file)) kill_line) result files.new }
    ensures wider { (string_capacity room.old.path ≤ string_capacity room.new.path)
        × (room.new.line ≡ room.old.line) }
{
    write_path(&mut room.path, root, kernel, group, KILL_FILE);
    telling::write(files, room.path.as_str(), KILL_LINE.as_bytes())
}

/// Removes the folder of a group.
pub fn remove_folder<F: GroupFiles>(
    files: &mut F,
    room: &mut Room,
    root: &str,
    kernel: &ModelKernel,
    group: Group,
) -> io::Result<()>
    requires path { HasRoom (string_capacity room.old.path) root.now kernel.now.tree }
    ensures tries { Tries F.asked files.old (Removed (root.now ++ (folder kernel.now.tree group ++ []))) result
        files.new }
    ensures wider { (string_capacity room.old.path ≤ string_capacity room.new.path)
        × (room.new.line ≡ room.old.line) }
{
    write_path(&mut room.path, root, kernel, group, "");
    telling::remove(files, room.path.as_str())
}

/// Makes the folder of a new group, whose parent's groups get the controller before. The folder's path is left in the
/// room for paths.
pub fn make_folder<F: GroupFiles>(
    files: &mut F,
    room: &mut Room,
    root: &str,
    kernel: &ModelKernel,
    parent: Group,
    name: &str,
) -> io::Result<()>
    requires path { HasRoom (string_capacity room.old.path) root.now kernel.now.tree }
    requires wide { length root.now + (length (folder kernel.now.tree parent) + (length name.now + 25))
        ≤ string_capacity room.old.path }
    ensures both { TriesBoth F.asked files.old
        (Written (root.now ++ (folder kernel.now.tree parent ++ controls_file)) controls_line)
        (Made (root.now ++ (folder kernel.now.tree parent ++ below name.now))) result files.new }
    ensures path { OnOk result (string_bytes room.new.path ≡ root.now
        ++ (folder kernel.now.tree parent ++ below name.now)) }
    ensures wider { (string_capacity room.old.path ≤ string_capacity room.new.path)
        × (room.new.line ≡ room.old.line) }
{
    write_path(&mut room.path, root, kernel, parent, CONTROLS_FILE);
    telling::write(files, room.path.as_str(), CONTROLS_LINE.as_bytes())?;
    write_path_below(&mut room.path, root, kernel, parent, name);
    telling::make(files, room.path.as_str())
}
