//! `numarun run --cgroup`.
ghost use Rattle.std.specs.Prelude.{◌≡◌, List, [], IfOk, MatchResult, option_map, string_bytes};
ghost use Rattle.machine.specs.Nodes.{nodes_of};
ghost use Rattle.cgroup_tree.specs.Asked.{Asked, Asks, Closes, HandsOut, named};
ghost use Rattle.cgroup_tree.specs.Roots.{AnswersRoot, RootTells};
ghost use Rattle.cgroup_tree.specs.Site.{opening};
ghost use Rattle.runtime.specs.MirroredNodes.{site_of};
ghost use Rattle.cli.specs.Program.{ScriptsMirrored, ScriptsMirroredAt};
ghost use Rattle.cli.specs.Roots.{IsNotRooted, root_note};
ghost use Rattle.cli.specs.RunAnswer.{PlaysMirrored};
ghost use Rattle.answers.specs.declared.note.Note.{Note};
ghost use Rattle.answers.specs.Notes.{note_text};

use crate::run::{finish, refuse, set_up};
use crate::unrooted::Unrooted;
use answers::{Console, Note, Opens, REFUSED, print_then_note};
use cgroup_tree::{
    GroupFiles, GroupTrees, MirroredKernel, OpenTree, RootOptions, Sited, Stranger, open_tree,
};
use machine::Machine;
use node::Node;
use runtime::{Bundles, Runner, boot_mirrored, files_of};
use script::ScriptFault;
use std::alloc::Global;
use std::io::{Read, Write};
use std::marker::Brand;
use std::mem;
use strangers::{Guarded, run_mirrored};

/// A cgroup v2 tree that a script is run in.
#[derive(Clone, Copy)]
pub struct Root<'a> {
    /// The path of its root.
    pub path: &'a str,
    /// How the tree is opened.
    pub options: RootOptions,
}

/// Runs a script as [`do_run`](crate::do_run) does, and makes each kernel write below this root too. If one of the
/// files or the root is refused, it prints why. No number of reads is too many.
pub fn do_run_mirrored<F: Opens, T: GroupTrees, B: Bundles + Drop, R: Read, W: Write, E: Write>(
    alloc: Global,
    machine: &str,
    table: Option<&str>,
    root: Root<'_>,
    files: &F,
    trees: &mut T,
    bundles: B,
    script: &mut R,
    console: &mut Console<W, E>,
) -> u8
    // It is the same as `do_run` in a cgroup tree, by 2^64 - 1 reads. Or it refuses its root, by what was found of it
    // (`IsNotRooted`), or the node's group can't be made there (`ScriptsMirroredAt`). At the end of a script its node
    // is mirrored (`PlaysMirrored`), as `runtime` says it. Its place is below ROOT, in a tree opened by these options,
    // with the nodes that were found to have memory. All that was asked of trees, when it returns, is what the root was
    // opened by (`RootTells`), and then what the node's kernel asked for. The writing calls of that kernel are those
    // that the script's lines stand for, line by line, in order and with their answers, behind those by which the node
    // began. If the machine is refused nothing was asked; if the root is, no more than its lock and what is told of it.
    // Where either is refused, or the node's group can't be made, no byte of the script was read. What the notes of the
    // system's refusals are on standard error no clause says: they go past its page.
    ensures { ScriptsMirrored W.contents E.contents console.old console.new result (F.opens files.now)
        (F.fails files.now) F.File.gives
        T.Files.asked (T.finds trees.old) T.asked trees.old trees.new B.finds (B.told bundles) (R.remaining script.old)
        (R.remaining script.new)
        machine.now (option_map (λ name. name.now) table.entry) root.entry.path.now root.entry.options }
{
    match set_up(alloc, machine, table, files) {
        Ok(found) => match open_below(alloc, &found, root, trees) {
            Ok(tree) => run_mirrored_in::<Brand, T, B, R, W, E>(
                alloc, found, tree, trees, bundles, script, console,
            ),
            Err(why) => print_then_note(&why, REFUSED, &note_of(root.path, why), console),
        },
        Err(unready) => refuse(machine, table, unready, console),
    }
}

/// The tree of this root, for this machine.
fn open_below<T: GroupTrees>(
    alloc: Global,
    machine: &Machine,
    root: Root<'_>,
    trees: &mut T,
) -> Result<OpenTree<T::Files>, Unrooted>
    ensures answers { MatchResult result
        (λ tree. AnswersRoot (T.finds trees.old) root.entry.path.now machine.now.online (nodes_of machine.now)
        root.entry.options.partition root.entry.options.adopt (Ok (tree.memory, named tree.strangers.items)))
        (λ why. IsNotRooted (T.finds trees.old) root.entry.path.now root.entry.options machine.now why
        (λ calls. Asks T.asked trees.old calls trees.new)) }
    ensures root { IfOk result (λ tree. string_bytes tree.root ≡ root.entry.path.now) }
    ensures options { IfOk result (λ tree. tree.options ≡ root.entry.options) }
    ensures unasked { IfOk result (λ tree. T.Files.asked tree.files
        (record { adopt = tree.options.adopt; locked = string_bytes tree.root }) []) }
    ensures taken { IfOk result (λ tree. (opened : List Asked)
        × RootTells (T.finds trees.old) root.entry.path.now machine.now.online (nodes_of machine.now) root.entry.options.adopt
        (Ok (tree.memory, named tree.strangers.items)) opened
        × HandsOut T.asked trees.old opened trees.new) }
{
    let (online, nodes) = (machine.boot_online(), machine.nodes());
    match open_tree(alloc, trees, root.path, &online, &nodes, root.options) {
        Ok(tree) => Ok(tree),
        Err(fault) => Err(Unrooted::from(fault)),
    }
}

/// Runs the script that the reader has left over the machine, in this tree, of which nothing was asked yet; or prints
/// why the group of all containers can't be made there. The tree's files are taken back.
fn run_mirrored_in<S: Sited, T: GroupTrees, B: Bundles + Drop, R: Read, W: Write, E: Write>(
    alloc: Global,
    machine: Machine,
    mut tree: OpenTree<T::Files>,
    trees: &mut T,
    bundles: B,
    script: &mut R,
    console: &mut Console<W, E>,
) -> u8
    requires site { S.site ≡ site_of machine (string_bytes tree.root) tree.memory tree.options }
    requires unasked { T.Files.asked tree.files
        (record { adopt = tree.options.adopt; locked = string_bytes tree.root }) [] }
    ensures { ScriptsMirroredAt W.contents E.contents console.old console.new result T.Files.asked machine
        (site_of machine (string_bytes tree.root) tree.memory tree.options)
        (λ calls. Closes T.asked trees.old calls trees.new) B.finds (B.told bundles) (named tree.strangers.items)
        (R.remaining script.old) (R.remaining script.new) }
{
    let strangers = mem::replace(&mut tree.strangers, Vec::new(alloc));
    match boot_mirrored::<T::Files, S>(alloc, machine, tree) {
        Ok(node) => {
            let (end, files) = play_mirrored(
                node,
                bundles,
                strangers,
                script,
                &mut console.out,
                u64::MAX,
            );
            trees.close(files);
            finish(end, console)
        }
        Err(not_booted) => {
            trees.close(not_booted.files);
            let why = Unrooted::from(not_booted.error);
            print_then_note(&why, REFUSED, &None, console)
        }
    }
}

/// Runs the script that the reader has left over a node whose kernel writes are made in files too, by so many reads at
/// most, and writes its answers. It hands the files back.
fn play_mirrored<F: GroupFiles + Drop, S: Sited, B: Bundles + Drop, R: Read, W: Write>(
    node: Node<MirroredKernel<F, S>>,
    bundles: B,
    strangers: Vec<Stranger>,
    script: &mut R,
    w: &mut W,
    most_reads: u64,
) -> (Result<(), ScriptFault>, F)
    ensures { PlaysMirrored F.asked S.site (F.asked result.1 (opening S.site)) B.finds most_reads node (B.told bundles)
        (named strangers.items) (R.remaining script.old) (R.remaining script.new) (W.contents w.old) (W.contents w.new) result.0 }
{
    strangers::laws::scripts_within::<B>();
    node.holds();
    let mut guarded = Guarded::new(Runner::new(node, bundles), strangers);
    let end = run_mirrored(&mut guarded, script, w, most_reads);
    (end, files_of(guarded.into_runner()))
}

/// What standard error says of a root that another program has.
const TAKEN: &str = "another program has it";

/// What it says of one that other programs can't be kept from.
const UNLOCKED: &str = "can't be locked";

/// The note beside a refusal of the root, where it can't be read or locked, or another program has it.
fn note_of(root: &str, why: Unrooted) -> Option<Note<'_>>
    ensures { note_text result ≡ root_note root.now why }
{
    match why {
        Unrooted::Unread(fault) => Some(Note::new(root, fault.reason())),
        Unrooted::Taken => Some(Note::new(root, TAKEN)),
        Unrooted::Unlocked => Some(Note::new(root, UNLOCKED)),
        _ => None,
    }
}
