//! What happens in the kernel beside the node's calls, each with the answer that is written.
ghost use Rattle.script.specs.Ends.{Replies};
ghost use Rattle.runtime.specs.Answered.{AnswersExit, AnswersFork, AnswersOffline, AnswersOnline};

use crate::answers::{put_done, put_pid};
use crate::refusal::Refusal;
use kernel_model::Kernel;
use node::Node;
use std::io;
use std::io::Write;

/// Answers `fork`: the pid of the child, or why there is none.
pub fn fork<K: Kernel + Drop, W: Write>(node: &mut Node<K>, pid: u32, w: &mut W) -> io::Result<()>
    ensures { Replies (AnswersFork node.old pid) (W.contents w.old) (W.contents w.new) result node.new }
{
    match node.fork(pid) {
        Ok(child) => put_pid(child, w),
        Err(error) => Refusal::from(error).write(w),
    }
}

/// Answers `exit`: `ok`, where the process has ended, or why it has not.
pub fn exit<K: Kernel + Drop, W: Write>(node: &mut Node<K>, pid: u32, w: &mut W) -> io::Result<()>
    ensures { Replies (AnswersExit node.old pid) (W.contents w.old) (W.contents w.new) result node.new }
{
    match node.exit(pid) {
        Ok(()) => put_done(w),
        Err(fault) => Refusal::from(fault).write(w),
    }
}

/// Answers `offline`: `ok`, where the CPU is gone, or why it is not.
pub fn offline<K: Kernel + Drop, W: Write>(
    node: &mut Node<K>,
    cpu: u32,
    w: &mut W,
) -> io::Result<()>
    ensures { Replies (AnswersOffline node.old cpu) (W.contents w.old) (W.contents w.new) result node.new }
{
    match node.offline(cpu) {
        Ok(()) => put_done(w),
        Err(fault) => Refusal::from(fault).write(w),
    }
}

/// Answers `online`: `ok`, where the CPU is back, or why it is not.
pub fn online<K: Kernel + Drop, W: Write>(node: &mut Node<K>, cpu: u32, w: &mut W) -> io::Result<()>
    ensures { Replies (AnswersOnline node.old cpu) (W.contents w.old) (W.contents w.new) result node.new }
{
    match node.online_cpu(cpu) {
        Ok(()) => put_done(w),
        Err(fault) => Refusal::from(fault).write(w),
    }
}
