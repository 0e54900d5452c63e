//! The commands that change nothing, each with the answer that is written.
ghost use Rattle.script.specs.Ends.{Replies};
ghost use Rattle.runtime.specs.Answered.{AnswersList, AnswersPhase, AnswersSets, AnswersState};

use crate::answers::{put_listing, put_phase, put_sets, put_state};
use crate::refusal::Refusal;
use kernel_model::Kernel;
use node::Node;
use std::io;
use std::io::Write;

/// Answers `state`: the state of a container, or why there is none.
pub fn state<K: Kernel + Drop, W: Write>(node: &Node<K>, id: &str, w: &mut W) -> io::Result<()>
    ensures { Replies (AnswersState node.now id.now) (W.contents w.old) (W.contents w.new) result node.now }
{
    match node.state(id) {
        Ok(text) => put_state(&text, w),
        Err(error) => Refusal::from(error).write(w),
    }
}

/// Answers `list`: all containers.
pub fn list<K: Kernel + Drop, W: Write>(node: &Node<K>, w: &mut W) -> io::Result<()>
    ensures { Replies (AnswersList node.now) (W.contents w.old) (W.contents w.new) result node.now }
{
    put_listing(node, w)
}

/// Answers `sets`: the CPUs and nodes of a container, or why there are none.
pub fn sets<K: Kernel + Drop, W: Write>(node: &Node<K>, id: &str, w: &mut W) -> io::Result<()>
    ensures { Replies (AnswersSets node.now id.now) (W.contents w.old) (W.contents w.new) result node.now }
{
    match node.sets(id) {
        Ok(sets) => put_sets(&sets, w),
        Err(fault) => Refusal::Node(fault).write(w),
    }
}

/// Answers `phase`: how far the last plan has been carried out.
pub fn phase<K: Kernel + Drop, W: Write>(node: &Node<K>, w: &mut W) -> io::Result<()>
    ensures { Replies (AnswersPhase node.now) (W.contents w.old) (W.contents w.new) result node.now }
{
    put_phase(node.phase(), w)
}
