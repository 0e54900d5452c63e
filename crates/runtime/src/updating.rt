//! The command that reads a container's config again, with the answer that is written.
ghost use Rattle.std.specs.Prelude.{◌≡◌, Some};
ghost use Rattle.script.specs.Ends.{Replies};
ghost use Rattle.runtime.specs.Answered.{AnswersRead, AnswersUpdate};
ghost use Rattle.runtime.specs.Found.{IsSeen};

use crate::answers::put_done;
use crate::bundles::Bundles;
use crate::refusal::Refusal;
use crate::refused_config::refused_config;
use kernel_model::Kernel;
use node::Node;
use std::io;
use std::io::Write;

/// Answers `update`: `ok`, where the container asks for what its bundle says now, or why it doesn't.
pub fn update<K: Kernel + Drop, B: Bundles, W: Write>(
    node: &mut Node<K>,
    bundles: &mut B,
    id: &str,
    bundle: &str,
    w: &mut W,
) -> io::Result<()>
    ensures answers { Replies (AnswersUpdate (IsSeen B.finds (B.told bundles.old)) node.old id.now bundle.now)
        (W.contents w.old) (W.contents w.new) result node.new }
    ensures same { B.told bundles.new ≡ B.told bundles.old }
{
    match bundles.config(bundle) {
        Ok(Some(config)) => update_from(node, bundles, id, bundle, config.as_slice(), w),
        Ok(None) => Refusal::NoBundle.write(w),
        Err(_) => Refusal::Memory.write(w),
    }
}

/// Reads the config of a container again, of the bundle with this config.
fn update_from<K: Kernel + Drop, B: Bundles, W: Write>(
    node: &mut Node<K>,
    bundles: &B,
    id: &str,
    bundle: &str,
    config: &[u8],
    w: &mut W,
) -> io::Result<()>
    ensures { Replies (AnswersRead node.old id.now bundle.now (Some config.now)) (W.contents w.old) (W.contents w.new)
        result node.new }
{
    match node.update(id, bundle, config) {
        Ok(()) => put_done(w),
        Err(error) => refused_config(error, bundles, bundle, config).write(w),
    }
}
