//! The paths of a group's folder and of its files.
ghost use Rattle.std.specs.Prelude.{◌≡◌, ◌↔◌, ◌+◌, ◌≤◌, ◌++◌, IfOk, IsTrue, OnOk, length, string_bytes};
ghost use Rattle.std.specs.List.{list_any};
ghost use Rattle.std.specs.String.{string_capacity, string_len};
ghost use Rattle.cgroup_tree.specs.Paths.{folder, below, is_slash, IsName};

use crate::room::FILE_ROOM;
use kernel_model::{Group, Kernel, ModelKernel};
use std::alloc::{AllocError, Global};

/// Puts a text behind another one, in the room that this has.
pub fn push_within(text: &mut String, more: &str)
    requires room { string_len text.old + length more.now ≤ string_capacity text.old }
    ensures bytes { string_bytes text.new ≡ string_bytes text.old ++ more.now }
    ensures len { string_len text.new ≡ string_len text.old + length more.now }
    ensures capacity { string_capacity text.old ≤ string_capacity text.new }
{
    if text.push_str(more).is_err() {
        unreachable!()
    }
}

/// The path of a file in a folder.
///
/// # Errors
/// An allocation failure.
pub fn path_below(alloc: Global, root: &str, file: &str) -> Result<String, AllocError>
    ensures { IfOk result (λ path. string_bytes path ≡ root.now ++ file.now) }
{
    let mut path = String::from_str(alloc, root)?;
    path.push_str(file)?;
    Ok(path)
}

/// Puts the folder of a group below the root's behind a text: the names on the way to it, each behind a slash.
fn push_folder(kernel: &ModelKernel, group: Group, text: &mut String)
    requires room { string_len text.old + length (folder kernel.now.tree group) ≤ string_capacity text.old }
    ensures bytes { string_bytes text.new ≡ string_bytes text.old ++ folder kernel.now.tree group }
    ensures len { string_len text.new ≡ string_len text.old + length (folder kernel.now.tree group) }
    ensures capacity { string_capacity text.old ≤ string_capacity text.new }
{
    kernel.root();
    let Some((parent, name)) = kernel.place(group) else {
        return;
    };
    push_folder(kernel, parent, text);
    push_within(text, "/");
    push_within(text, name);
}

/// Makes the path of a file in the folder of a group.
pub fn write_path(path: &mut String, root: &str, kernel: &ModelKernel, group: Group, file: &str)
    requires room { length root.now + (length (folder kernel.now.tree group) + length file.now)
        ≤ string_capacity path.old }
    ensures bytes { string_bytes path.new ≡ root.now ++ (folder kernel.now.tree group ++ file.now) }
    ensures len { string_len path.new ≡ length root.now + (length (folder kernel.now.tree group) + length file.now) }
    ensures capacity { string_capacity path.old ≤ string_capacity path.new }
{
    path.clear();
    push_within(path, root);
    push_folder(kernel, group, path);
    push_within(path, file);
}

/// Makes the path of the folder that a name has in the folder of a group.
pub fn write_path_below(
    path: &mut String,
    root: &str,
    kernel: &ModelKernel,
    parent: Group,
    name: &str,
)
    requires room { length root.now + (length (folder kernel.now.tree parent) + (length name.now + 1))
        ≤ string_capacity path.old }
    ensures bytes { string_bytes path.new ≡ root.now ++ (folder kernel.now.tree parent ++ below name.now) }
    ensures capacity { string_capacity path.old ≤ string_capacity path.new }
{
    write_path(path, root, kernel, parent, "/");
    push_within(path, name);
}

/// Makes room for the paths of a new group's files.
///
/// # Errors
/// An allocation failure.
pub fn widen(
    path: &mut String,
    root: &str,
    kernel: &ModelKernel,
    parent: Group,
    name: &str,
) -> Result<(), AllocError>
    requires room { length root.now + (length (folder kernel.now.tree parent) + 1) ≤ string_capacity path.old }
    ensures wide { OnOk result (length root.now + (length (folder kernel.now.tree parent) + (length name.now + 25))
        ≤ string_capacity path.new) }
    ensures capacity { string_capacity path.old ≤ string_capacity path.new }
{
    write_path(path, root, kernel, parent, "/");
    path.reserve(name.len() + FILE_ROOM)
}

/// Whether this names a folder in another one: it has no slash, and is neither `.` nor `..`, which each folder has.
pub fn is_name(name: &[u8]) -> bool
    ensures { IsTrue result ↔ IsName name.now }
{
    if name.is_empty() {
        return false;
    }
    if name == b".".as_slice() || name == b"..".as_slice() {
        return false;
    }
    !has_slash(name)
}

fn has_slash(name: &[u8]) -> bool
    ensures { result ≡ list_any is_slash name.now }
{
    name.iter().any(|b| *b == b'/')
}
