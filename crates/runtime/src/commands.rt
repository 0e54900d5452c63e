//! The commands that change something, each with the answer that is written.
ghost use Rattle.std.specs.Prelude.{◌≡◌, Some};
ghost use Rattle.script.specs.Ends.{Replies};
ghost use Rattle.runtime.specs.Answered.{AnswersCreate, AnswersDelete, AnswersForget, AnswersFound, AnswersKill};
ghost use Rattle.runtime.specs.Answered.{AnswersStart};
ghost use Rattle.runtime.specs.Found.{IsSeen};

use crate::answers::{put_done, put_pid};
use crate::bundles::Bundles;
use crate::refusal::Refusal;
use crate::refused_config::refused_config;
use kernel_model::Kernel;
use node::Node;
use std::io;
use std::io::Write;

/// Answers `create`: the pid of the new container, or why there is none.
pub fn create<K: Kernel + Drop, B: Bundles, W: Write>(
    node: &mut Node<K>,
    bundles: &mut B,
    id: &str,
    bundle: &str,
    w: &mut W,
) -> io::Result<()>
    ensures answers { Replies (AnswersCreate (IsSeen B.finds (B.told bundles.old)) node.old id.now bundle.now)
        (W.contents w.old) (W.contents w.new) result node.new }
    ensures same { B.told bundles.new ≡ B.told bundles.old }
{
    match bundles.config(bundle) {
        Ok(Some(config)) => create_from(node, bundles, id, bundle, config.as_slice(), w),
        Ok(None) => Refusal::NoBundle.write(w),
        Err(_) => Refusal::Memory.write(w),
    }
}

/// Creates a container of the bundle with this config.
fn create_from<K: Kernel + Drop, B: Bundles, W: Write>(
    node: &mut Node<K>,
    bundles: &B,
    id: &str,
    bundle: &str,
    config: &[u8],
    w: &mut W,
) -> io::Result<()>
    ensures { Replies (AnswersFound node.old id.now bundle.now (Some config.now)) (W.contents w.old) (W.contents w.new)
        result node.new }
{
    match node.create(id, bundle, config) {
        Ok(pid) => put_pid(pid, w),
        Err(error) => refused_config(error, bundles, bundle, config).write(w),
    }
}

/// Answers `start`: `ok`, where the container's program runs, or why it doesn't.
pub fn start<K: Kernel + Drop, W: Write>(node: &mut Node<K>, id: &str, w: &mut W) -> io::Result<()>
    ensures { Replies (AnswersStart node.old id.now) (W.contents w.old) (W.contents w.new) result node.new }
{
    match node.start(id) {
        Ok(()) => put_done(w),
        Err(fault) => Refusal::Node(fault).write(w),
    }
}

/// Answers `kill`: `ok`, where the signal was sent, or why it was not.
pub fn kill<K: Kernel + Drop, W: Write>(
    node: &mut Node<K>,
    id: &str,
    signal: &str,
    w: &mut W,
) -> io::Result<()>
    ensures { Replies (AnswersKill node.old id.now signal.now) (W.contents w.old) (W.contents w.new) result node.new }
{
    match node.kill(id, signal) {
        Ok(()) => put_done(w),
        Err(fault) => Refusal::Node(fault).write(w),
    }
}

/// Answers `forget`: a node alone knows of no groups but its containers'.
pub fn forget<K: Kernel + Drop, W: Write>(node: &Node<K>, w: &mut W) -> io::Result<()>
    ensures { Replies (AnswersForget node.now) (W.contents w.old) (W.contents w.new) result node.now }
{
    Refusal::NoStranger.write(w)
}

/// Answers `delete`: `ok`, where the container is gone, or why it is not.
pub fn delete<K: Kernel + Drop, W: Write>(node: &mut Node<K>, id: &str, w: &mut W) -> io::Result<()>
    ensures { Replies (AnswersDelete node.old id.now) (W.contents w.old) (W.contents w.new) result node.new }
{
    match node.delete(id) {
        Ok(()) => put_done(w),
        Err(fault) => Refusal::Node(fault).write(w),
    }
}
