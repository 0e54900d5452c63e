//! Runtimes beside strangers, over a node whose kernel's writes are made in a cgroup tree.
ghost use Rattle.runtime.specs.MirroredNodes.{IsMirroredNode};
ghost use Rattle.script.specs.Ends.{EndsBy};
ghost use Rattle.strangers.specs.Guarded.{GuardedBy};

use crate::guarded::Guarded;
use cgroup_tree::{GroupFiles, MirroredKernel, Sited};
use runtime::{Bundles, is_mirrored};
use script::{ScriptFault, run_script_within};
use std::io::{Read, Write};

/// Runs a script, as [`run_script_within`] does, over a node whose kernel is mirrored, beside strangers.
///
/// # Errors
/// Those of [`run_script_within`].
pub fn run_mirrored<F: GroupFiles + Drop, S: Sited, B: Bundles + Drop, R: Read, W: Write>(
    guarded: &mut Guarded<MirroredKernel<F, S>, B>,
    script: &mut R,
    w: &mut W,
    most_reads: u64,
) -> Result<(), ScriptFault>
    ensures ends { EndsBy most_reads (GuardedBy B.finds) (R.remaining script.old) (R.remaining script.new)
        (W.contents w.old) (W.contents w.new)
        guarded.old result guarded.new }
    // It holds after any script, whatever its commands were and whichever writes failed. All that was asked of the
    // files since the start is what the calls of the node's kernel stand for, in their order and place. If files do
    // what they answer, each group's have what it requests, and that is safe. The writing calls among the kernel's are
    // those of its trace, to which each line adds just those that it stands for (`told` of `laws::scripts_within`).
    ensures mirrored { IsMirroredNode F.asked S.site guarded.new.runtime.node }
{
    let end = run_script_within(guarded, script, w, most_reads);
    is_mirrored(guarded.node());
    end
}
