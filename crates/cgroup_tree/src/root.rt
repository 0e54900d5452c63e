//! A tree is opened, and what its root has to be before that.
ghost use Rattle.std.specs.Prelude.{◌≡◌, ◌≢◌, ◌↔◌, [], ◌∷◌, IfErr, IfOk, IsTrue, MatchOption, MatchResult, None, OnOk};
ghost use Rattle.std.specs.Prelude.{List, string_bytes, true};
ghost use Rattle.std.specs.FinSet as set;
ghost use Rattle.std.specs.IoError.{error_kind};
ghost use Rattle.cpu_set.specs.Ids.{Ids};
ghost use Rattle.cpu_list.specs.FirstFault.{first_fault};
ghost use Rattle.cgroup_tree.specs.Asked.{Asked, Asks, AsksSome, HandsOut, Locked, is_made, named};
ghost use Rattle.cgroup_tree.specs.Roots.{AnswersRoot, CpusTell, FindsNoMore, IsListOf, IsLockFaultOf};
ghost use Rattle.cgroup_tree.specs.Roots.{LooksAtControllers, LooksAtCpus, LooksAtFolder, LooksAtLock, LooksAtMachine};
ghost use Rattle.cgroup_tree.specs.Roots.{LooksAtMems, MachineTells, MemsTell, RootTells, TellsOthers, TellsUnlessNone};
ghost use Rattle.cgroup_tree.specs.Roots.{LooksAtStrangers, names_cpuset, names_strangers, remark_of};

use crate::partition::look_at_partition;
use crate::paths::path_below;
use crate::{Difference, GroupTrees, RootFault, Stranger};
use cpu_set::{CPU_LIMIT, IdSet};
use std::alloc::Global;
use std::io;
use std::io::ErrorKind;

/// The files of a group that say what it has (cgroup v2, "Core Interface Files" and "Cpuset Interface Files").
const CONTROLLERS: &str = "/cgroup.controllers";

const CPUS_IN_EFFECT: &str = "/cpuset.cpus.effective";

const MEMS_IN_EFFECT: &str = "/cpuset.mems.effective";

/// The group of all containers.
const GROUP: &str = "/numarun";

/// How a tree is opened.
#[derive(Clone, Copy, Debug)]
pub struct RootOptions {
    /// Whether folders of a run before may be there.
    pub adopt: bool,
    /// Whether the root has to be a partition root (cgroup v2, `cpuset.cpus.partition`), so that the kernel keeps the
    /// rest of the host off its CPUs.
    pub partition: bool,
}

/// A cgroup v2 tree that is open.
#[derive(Drop)]
pub struct OpenTree<F> {
    /// The path of its root.
    pub root: String,
    /// The nodes that have memory.
    pub memory: IdSet,
    /// The folders of a run before, where they may be there.
    pub strangers: Vec<Stranger>,
    /// How it was opened.
    pub options: RootOptions,
    /// Its files.
    pub files: F,
}

/// The tree of this root, for a machine whose online CPUs and whose nodes are these. With `adopt` folders of a run
/// before may be there, and each is named to the operator, with the CPUs that its file holds. Nothing was asked of its
/// files, which keep other programs from the root as long as they live.
///
/// # Errors
/// In this order: [`RootFault::Unread`] where the root is no folder, [`RootFault::Taken`] or [`RootFault::Unlocked`],
/// [`RootFault::NoCpuset`], [`RootFault::OtherMachine`], with `partition` [`RootFault::NoPartition`]; and `Unread` or
/// `Memory` where a file can't be read.
pub fn open_tree<T: GroupTrees>(
    alloc: Global,
    trees: &mut T,
    root: &str,
    online: &IdSet,
    nodes: &IdSet,
    options: RootOptions,
) -> Result<OpenTree<T::Files>, RootFault>
    // It answers the nodes that have memory and the folders of a run before, or the first look at the root that is
    // against it (`AnswersRoot`). The looks are whether it is a folder, whether another program has it, its
    // controllers, its CPUs in effect, its nodes in effect and, with `partition`, whether it is a partition root. The
    // last one is which folders there are, with `adopt`.
    ensures answers { MatchResult result
        (λ tree. AnswersRoot (T.finds trees.old) root.now online.now nodes.now options.partition options.adopt
        (Ok (tree.memory, named tree.strangers.items)))
        (λ why. AnswersRoot (T.finds trees.old) root.now online.now nodes.now options.partition options.adopt
        (Err why)) }
    ensures root { IfOk result (λ tree. string_bytes tree.root ≡ root.now) }
    ensures options { IfOk result (λ tree. tree.options ≡ options) }
    // Nothing was asked of its files yet, which were opened as it is told to, and hold the root's own lock.
    ensures unasked { IfOk result (λ tree. T.Files.asked tree.files (record {
      adopt = options.adopt;
      locked = root.now;
    }) []) }
    // Of the trees nothing was asked but to keep other programs from this root and, with `adopt`, to name the folders
    // of a run before (`RootTells`). The files are handed out.
    ensures taken { IfOk result (λ tree. (asked : List Asked)
        × RootTells (T.finds trees.old) root.now online.now nodes.now options.adopt
        (Ok (tree.memory, named tree.strangers.items)) asked
        × HandsOut T.asked trees.old asked trees.new) }
    // If it is refused, nothing was asked but its lock and what is told of it (`RootTells`), and no files are handed
    // out.
    ensures refused { IfErr result (λ why. AsksSome T.asked trees.old
        (RootTells (T.finds trees.old) root.now online.now nodes.now options.adopt (Err why)) trees.new) }
{
    look_at_folder(trees, root)?;
    let text = String::from_str(alloc, root)?;
    let lock = lock_root(trees, root)?;
    let memory = memory_of(alloc, trees, root, online, nodes, options)?;
    let strangers = strangers_of(alloc, trees, root, options.adopt)?;
    Ok(OpenTree {
        root: text,
        memory,
        strangers,
        options,
        files: trees.files(lock, options.adopt),
    })
}

/// The nodes that have memory, of a machine whose online CPUs and whose nodes are these: those in effect at a root that
/// is had, or all of them where that is not told. It is a partition root if it has to be.
fn memory_of<T: GroupTrees>(
    alloc: Global,
    trees: &mut T,
    root: &str,
    online: &IdSet,
    nodes: &IdSet,
    options: RootOptions,
) -> Result<IdSet, RootFault>
    ensures looks { LooksAtMachine (T.finds trees.old) root.now online.now nodes.now options.partition result }
    ensures tells { AsksSome T.asked trees.old
        (MachineTells (T.finds trees.old) root.now online.now nodes.now result) trees.new }
    ensures same { OnOk result (trees.new ≡ trees.old) }
{
    look_at_controllers(alloc, trees, root)?;
    look_at_cpus(alloc, trees, root, online)?;
    let memory = look_at_mems(alloc, trees, root, nodes)?;
    look_at_partition(alloc, trees, root, options.partition)?;
    Ok(memory)
}

/// The folders of a run before, where they may be there. Each is named to the operator.
fn strangers_of<T: GroupTrees>(
    alloc: Global,
    trees: &mut T,
    root: &str,
    adopt: bool,
) -> Result<Vec<Stranger>, RootFault>
    ensures looks { MatchResult result
        (λ strangers. LooksAtStrangers (T.finds trees.old) root.now adopt (Ok (named strangers.items)))
        (λ why. LooksAtStrangers (T.finds trees.old) root.now adopt (Err why)) }
    ensures tells { MatchResult result
        (λ strangers. Asks T.asked trees.old
        (names_strangers (T.finds trees.old) root.now adopt (named strangers.items)) trees.new)
        (λ why. trees.new ≡ trees.old) }
{
    if !adopt {
        return Ok(Vec::new(alloc));
    }
    let group = path_below(alloc, root, GROUP)?;
    let strangers = trees.strangers(alloc, group.as_str())?;
    trees.name_strangers(group.as_str(), strangers.as_slice());
    Ok(strangers)
}

fn look_at_folder<T: GroupTrees>(trees: &T, root: &str) -> Result<(), RootFault>
    ensures { LooksAtFolder (T.finds trees.now) root.now result }
{
    if trees.is_folder(root)? {
        Ok(())
    } else {
        Err(RootFault::Unread(ErrorKind::NotADirectory))
    }
}

/// What keeps other programs from the root, as long as it lives.
fn lock_root<T: GroupTrees>(trees: &mut T, root: &str) -> Result<T::Lock, RootFault>
    ensures looks { LooksAtLock (T.finds trees.old) root.now result }
    ensures locks { IfOk result (λ lock. T.locks lock root.now) }
    ensures finds { FindsNoMore (T.finds trees.old) (T.finds trees.new) }
    ensures asked { Asks T.asked trees.old (record { deed = Locked root.now; done = is_made result } ∷ []) trees.new }
{
    match trees.lock(root) {
        Ok(Some(lock)) => Ok(lock),
        Ok(None) => Err(RootFault::Taken),
        Err(error) => Err(unlocked(error)),
    }
}

/// Why a root can't be locked.
fn unlocked(error: io::Error) -> RootFault
    ensures { IsLockFaultOf (error_kind error) result }
{
    match error.kind() {
        ErrorKind::OutOfMemory => RootFault::Memory,
        kind => RootFault::Unlocked(kind),
    }
}

fn look_at_controllers<T: GroupTrees>(alloc: Global, trees: &T, root: &str) -> Result<(), RootFault>
    ensures { LooksAtControllers (T.finds trees.now) root.now result }
{
    let path = path_below(alloc, root, CONTROLLERS)?;
    let Some(text) = trees.read(alloc, path.as_str())? else {
        return Ok(());
    };
    if names_cpuset(text.as_slice()) {
        Ok(())
    } else {
        Err(RootFault::NoCpuset)
    }
}

fn look_at_cpus<T: GroupTrees>(
    alloc: Global,
    trees: &mut T,
    root: &str,
    online: &IdSet,
) -> Result<(), RootFault>
    ensures looks { LooksAtCpus (T.finds trees.old) root.now online.now result }
    ensures tells { AsksSome T.asked trees.old (CpusTell (T.finds trees.old) root.now online.now result) trees.new }
    ensures same { OnOk result (trees.new ≡ trees.old) }
{
    let path = path_below(alloc, root, CPUS_IN_EFFECT)?;
    let Some(text) = trees.read(alloc, path.as_str())? else {
        return Ok(());
    };
    if is_list_of(text.as_slice(), online) {
        return Ok(());
    }
    tell_others(trees, path.as_str(), text.as_slice(), online, online);
    Err(RootFault::OtherMachine)
}

fn look_at_mems<T: GroupTrees>(
    alloc: Global,
    trees: &mut T,
    root: &str,
    nodes: &IdSet,
) -> Result<IdSet, RootFault>
    ensures looks { LooksAtMems (T.finds trees.old) root.now nodes.now result }
    ensures tells { AsksSome T.asked trees.old (MemsTell (T.finds trees.old) root.now nodes.now result) trees.new }
    ensures same { OnOk result (trees.new ≡ trees.old) }
{
    let path = path_below(alloc, root, MEMS_IN_EFFECT)?;
    let Some(text) = trees.read(alloc, path.as_str())? else {
        return Ok(*nodes);
    };
    if let Some(memory) = nodes_in(text.as_slice(), nodes) {
        return Ok(memory);
    }
    let none = IdSet::empty();
    tell_others(trees, path.as_str(), text.as_slice(), &none, nodes);
    Err(RootFault::OtherMachine)
}

/// Tells the operator by what a file's text makes its root another machine's: which numbers it lacks of the least that
/// it has to have, and which it has besides the most; or that it is no list.
fn tell_others<T: GroupTrees>(trees: &mut T, path: &str, text: &[u8], least: &IdSet, most: &IdSet)
    ensures { AsksSome T.asked trees.old (TellsOthers path.now text.now least.now most.now) trees.new }
{
    match set_in(text) {
        None => trees.tell(path, Difference::NoList),
        Some(found) => {
            let (lacks, besides) = (least.minus(&found), found.minus(most));
            tell_unless_none(trees, path, &lacks, Difference::Lacks(&lacks));
            tell_unless_none(trees, path, &besides, Difference::HasBesides(&besides));
        }
    }
}

/// Tells the operator of a difference by these numbers, if there are any.
fn tell_unless_none<T: GroupTrees>(
    trees: &mut T,
    path: &str,
    numbers: &IdSet,
    difference: Difference<'_>,
)
    ensures { AsksSome T.asked trees.old (TellsUnlessNone path.now numbers.now (remark_of difference.entry)) trees.new }
{
    if numbers.is_empty() {
        return;
    }
    trees.tell(path, difference);
}

/// The set that a file's text names, if it is a list.
fn set_in(text: &[u8]) -> Option<IdSet>
    ensures { MatchOption result (first_fault CPU_LIMIT text.now ≢ None) (λ ids. IsListOf text.now ids) }
{
    cpu_list::read(text, CPU_LIMIT).ok()
}

/// Whether a file's text is a list of just these CPUs.
fn is_list_of(text: &[u8], ids: &IdSet) -> bool
    ensures { IsTrue result ↔ IsListOf text.now ids.now }
{
    match set_in(text) {
        Some(found) => found == *ids,
        None => false,
    }
}

/// The set that a file's text names, if it is a list of no others than these nodes.
fn nodes_in(text: &[u8], nodes: &IdSet) -> Option<IdSet>
    ensures { MatchOption result
        ((memory : Ids) → IsListOf text.now memory → set.is_subset memory nodes.now ≡ true → ⊥)
        (λ memory. IsListOf text.now memory × (set.is_subset memory nodes.now ≡ true)) }
{
    let memory = set_in(text)?;
    if memory.is_subset(nodes) {
        Some(memory)
    } else {
        None
    }
}

/// Whether the controllers of a group, each a word, have the one for cpusets.
fn names_cpuset(text: &[u8]) -> bool
    ensures { result ≡ names_cpuset text.now }
{
    text.split(|b| *b == b' ' || *b == b'\n')
        .any(|word| word == b"cpuset".as_slice())
}
