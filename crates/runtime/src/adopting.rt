//! The command that takes up a container which runs already, with the answer that is written.
ghost use Rattle.std.specs.Prelude.{◌≡◌, Some};
ghost use Rattle.script.specs.Ends.{Replies};
ghost use Rattle.runtime.specs.Answered.{AnswersAdopt, AnswersTaken, NamesCpus};
ghost use Rattle.runtime.specs.Found.{IsSeen};

use crate::answers::put_pid;
use crate::bundles::Bundles;
use crate::refusal::Refusal;
use crate::refused_config::refused_config;
use cpu_list::read;
use cpu_set::{CPU_LIMIT, IdSet};
use kernel_model::Kernel;
use node::Node;
use std::io;
use std::io::Write;

/// The CPUs that a list names.
fn named(list: &str) -> Result<IdSet, Refusal>
    ensures { NamesCpus list.now result }
{
    let cpus = match read(list.as_bytes(), CPU_LIMIT) {
        Ok(cpus) => cpus,
        Err(error) => return Err(Refusal::BadSet(error)),
    };
    if cpus.is_empty() {
        return Err(Refusal::NoCpus);
    }
    Ok(cpus)
}

/// Answers `adopt`: the pid of a container that is taken up with the CPUs that it has, or why it is not.
pub fn adopt<K: Kernel + Drop, B: Bundles, W: Write>(
    node: &mut Node<K>,
    bundles: &mut B,
    id: &str,
    bundle: &str,
    list: &str,
    w: &mut W,
) -> io::Result<()>
    ensures answers { Replies (AnswersAdopt (IsSeen B.finds (B.told bundles.old)) node.old id.now bundle.now list.now)
        (W.contents w.old) (W.contents w.new) result node.new }
    ensures same { B.told bundles.new ≡ B.told bundles.old }
{
    match bundles.config(bundle) {
        Ok(Some(config)) => adopt_from(node, bundles, id, bundle, config.as_slice(), list, w),
        Ok(None) => Refusal::NoBundle.write(w),
        Err(_) => Refusal::Memory.write(w),
    }
}

/// Takes up a container of the bundle with this config, which has the CPUs of the list.
fn adopt_from<K: Kernel + Drop, B: Bundles, W: Write>(
    node: &mut Node<K>,
    bundles: &B,
    id: &str,
    bundle: &str,
    config: &[u8],
    list: &str,
    w: &mut W,
) -> io::Result<()>
    ensures { Replies (AnswersTaken node.old id.now bundle.now list.now (Some config.now)) (W.contents w.old)
        (W.contents w.new) result node.new }
{
    let cpus = match named(list) {
        Ok(cpus) => cpus,
        Err(why) => return why.write(w),
    };
    match node.adopt(id, bundle, config, cpus) {
        Ok(pid) => put_pid(pid, w),
        Err(error) => refused_config(error, bundles, bundle, config).write(w),
    }
}
