//! The commands that plan, each with the answer that is written.
ghost use Rattle.std.specs.Prelude.{true, false};
ghost use Rattle.script.specs.Ends.{Replies};
ghost use Rattle.runtime.specs.Answered.{AnswersBegin, AnswersCertificate, AnswersRebalance, AnswersStep};

use crate::outcomes::{put_outcome, put_progress};
use crate::refusal::Refusal;
use certificate_text::write_text;
use kernel_model::Kernel;
use node::Node;
use std::io;
use std::io::Write;

/// Answers `rebalance`: the plan that was carried out or the shortage, or why there is neither.
pub fn rebalance<K: Kernel + Drop, W: Write>(node: &mut Node<K>, w: &mut W) -> io::Result<()>
    ensures { Replies (AnswersRebalance false node.old) (W.contents w.old) (W.contents w.new) result node.new }
{
    match node.rebalance() {
        Ok(outcome) => put_outcome(&outcome, node, w),
        Err(error) => Refusal::from(error).write(w),
    }
}

/// Answers `rebalance direct` as `rebalance`: the plan was carried out in the direct order.
pub fn rebalance_directly<K: Kernel + Drop, W: Write>(
    node: &mut Node<K>,
    w: &mut W,
) -> io::Result<()>
    ensures { Replies (AnswersRebalance true node.old) (W.contents w.old) (W.contents w.new) result node.new }
{
    match node.rebalance_directly() {
        Ok(outcome) => put_outcome(&outcome, node, w),
        Err(error) => Refusal::from(error).write(w),
    }
}

/// Answers `begin`: the plan whose hand-over begins or the shortage, or why there is neither.
pub fn begin<K: Kernel + Drop, W: Write>(node: &mut Node<K>, w: &mut W) -> io::Result<()>
    ensures { Replies (AnswersBegin false node.old) (W.contents w.old) (W.contents w.new) result node.new }
{
    match node.begin() {
        Ok(outcome) => put_outcome(&outcome, node, w),
        Err(error) => Refusal::from(error).write(w),
    }
}

/// Answers `begin direct` as `begin`: the hand-over goes in the direct order.
pub fn begin_directly<K: Kernel + Drop, W: Write>(node: &mut Node<K>, w: &mut W) -> io::Result<()>
    ensures { Replies (AnswersBegin true node.old) (W.contents w.old) (W.contents w.new) result node.new }
{
    match node.begin_directly() {
        Ok(outcome) => put_outcome(&outcome, node, w),
        Err(error) => Refusal::from(error).write(w),
    }
}

/// Answers `step`: whether a write is left behind this one, or why it was not done.
pub fn step<K: Kernel + Drop, W: Write>(node: &mut Node<K>, w: &mut W) -> io::Result<()>
    ensures { Replies (AnswersStep node.old) (W.contents w.old) (W.contents w.new) result node.new }
{
    match node.step() {
        Ok(progress) => put_progress(progress, w),
        Err(fault) => Refusal::Node(fault).write(w),
    }
}

/// Answers `certificate`: the text of the last one, or that there is none.
pub fn certificate<K: Kernel + Drop, W: Write>(node: &Node<K>, w: &mut W) -> io::Result<()>
    ensures { Replies (AnswersCertificate node.now) (W.contents w.old) (W.contents w.new) result node.now }
{
    match node.certificate() {
        Ok(certificate) => write_text(certificate, w),
        Err(fault) => Refusal::Node(fault).write(w),
    }
}
