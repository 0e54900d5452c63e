//! A kernel whose writes are made in a cgroup v2 tree too: the modelled kernel decides what each call returns and
//! changes, and each write that it makes is asked of the tree's files, below a root, before the model changes.
//!
//! For a kernel in memory alone use `kernel_model`. If one group is to get some CPUs and nobody asks what else
//! holds them, a write to its `cpuset.cpus` does it without this crate.
//!
//! # Proved
//!
//! - `MirroredKernel` meets the trait `Kernel`. Its meaning is the modelled kernel's; writes that never came to the
//!   model are told and counted as failures. So all that is proved of failing writes holds of it.
//! - What each writing call asks of the tree's files is its contract, on top of the trait's (`Mirrors`,
//!   `MirrorsLooks`, `MirrorsBoth`). If it is Ok, it asked for exactly the write that it stands for, and that was
//!   done. If it failed, it asked for that write and was refused; a group that is made may fail with nothing asked.
//!   If something stood against it in the model, it asked for nothing. Behind a write of CPUs that is done the files
//!   are asked to compare `cpuset.cpus.effective` with what the model has in effect and, if the root has to be a
//!   partition root, the root's `cpuset.cpus.partition` with `root`.
//! - What is refused is told to the operator behind it, with its path, and so is a file that has another line than it
//!   was compared with (`refusal`, `looked`). If a group can't be made and nothing was asked for it, the reason is told
//!   with its name. So each failed write has its note, and each difference in effect (`laws::pasts`). What a note's
//!   text is, no clause says.
//! - A write takes no memory. There is room for the path of each file of each group, and for the line of any set
//!   (`HasRoom`): the kernel's making takes it, and a group's. Only a group that is made fails for want of it.
//! - No path leaves the root: names with a slash, `.` and `..` are refused.
//! - If a folder was made for a group and the group's allocation then failed, the folder is unmade. That is a call of
//!   its own (`Unmade`), which is to leave a folder that was there before.
//! - The type has an invariant, which `is_mirrored` names (`IsMirrored`, `Past`). A list of calls, each by its case,
//!   led from the kernel as it began to this one. All that was asked of the files since they were opened is what these
//!   calls stand for, in their order. The writing calls among them are just those of the kernel's trace, each with its
//!   answer (`told`). Each node over such a kernel holds it, after each command of a script.
//! - The `Site` of the type has the root, the nodes with memory, how the files were opened and how the kernel began. No
//!   call changes it.
//! - Files stand for the tree after any such calls, whatever each answered (`files_stand`, `pasts`). No two groups have
//!   one folder. Each group's `cpuset.cpus` is the line of the set that it requests. Its `cpuset.mems` is the line of
//!   those of its nodes that have memory. This is claimed of what was asked. It holds of the files themselves if they
//!   do what they answer and nobody else writes.
//! - What looks at paths may find is a relation of the trait `GroupTrees`. So E113, E115, E116, E117 and the E50 of a
//!   second program, or of a root that can't be locked, come only if a look may find what says so. What is told is what
//!   such a look found. The clauses don't say how often a path is looked at. An allocation failure may come anywhere,
//!   so a body that always answers one meets that too.
//! - The groups outside a partition root have in effect none of its CPUs, whatever they request, by the kernel's rule
//!   that the root of these groups has none of them (`laws::partitions`). No call writes a `cpuset.cpus.partition`, or
//!   the root's own `cpuset.cpus`.
//! - `GroupTrees` has the list of all that was asked of trees. A root that is refused asks for no more than its lock
//!   and what is told of it: which CPUs or nodes it lacks and has besides, or what its partition file has. One that is
//!   taken asks for its lock, and with `--adopt` for the folders of a run before to be named, with the CPUs that they
//!   hold (`RootTells`). It answers these too.
//! - How files were opened is part of their relation, with the folder that they are locked by. No call of theirs
//!   changes it. So the lock is held from the opening until the files are taken back (`close`), which puts all that
//!   they were asked for into the list of the trees.
//! - No contract can say what a file system does. Of the system's own files (`HostFiles`, `HostTrees`) it is proved
//!   that their calls end and do nothing undefined. It is also proved that they are opened with folders of a run
//!   before, or without, as they are told, and that none of their calls drops the open file that is locked. Tests show
//!   the rest: a look finds what is there, and a lock keeps others off until the program has ended. A write reaches the
//!   file, and what was there before is left. They show the notes too.
#![tactic(auto)]

mod cgroup;
mod cpuset;
mod difference;
mod fault;
mod group_files;
mod group_trees;
mod host_files;
mod host_trees;
pub mod laws;
mod line;
mod line_fault;
mod mirror;
mod mirrored_kernel;
mod partition;
mod paths;
mod room;
mod root;
mod shown;
mod sited;
mod stranger;
mod telling;
mod unasked;

pub use difference::Difference;
pub use fault::RootFault;
pub use group_files::GroupFiles;
pub use group_trees::GroupTrees;
pub use host_files::HostFiles;
pub use host_trees::HostTrees;
pub use line_fault::LineFault;
pub use mirrored_kernel::MirroredKernel;
pub use room::Room;
pub use root::{OpenTree, RootOptions, open_tree};
pub use sited::Sited;
pub use stranger::Stranger;
pub use unasked::Unasked;
