//! The texts that answer commands.
ghost use Rattle.std.specs.Prelude.{◌++◌, codes};
ghost use Rattle.byte_output.specs.Output.{Writes};
ghost use Rattle.node.specs.Listed.{listing};
ghost use Rattle.runtime.specs.AnswerTexts.{both_text, done_line, listing_text, phase_line, pid_line, set_text};
ghost use Rattle.runtime.specs.AnswerTexts.{sets_line};
ghost use Rattle.runtime.specs.Answered.{state_line};

use byte_output::{put, put_all, put_number};
use cpu_list::write_list;
use cpu_set::IdSet;
use kernel_model::Kernel;
use node::{Node, Phase, Sets};
use std::io;
use std::io::Write;

/// Answers a command that has nothing to tell.
pub fn put_done<W: Write>(w: &mut W) -> io::Result<()>
    ensures { Writes (W.contents w.old) (W.contents w.new) result (done_line tt) }
{
    put(b"ok\n", w)
}

/// Answers with the pid of a process that has come to be.
pub fn put_pid<W: Write>(pid: u32, w: &mut W) -> io::Result<()>
    ensures { Writes (W.contents w.old) (W.contents w.new) result (pid_line pid) }
{
    put_number(b"pid ", u64::from(pid), b"\n", w)
}

/// Answers with a container's state, as its JSON text.
pub fn put_state<W: Write>(text: &String, w: &mut W) -> io::Result<()>
    ensures { Writes (W.contents w.old) (W.contents w.new) result (state_line text.now) }
{
    put_all(&[text.as_bytes(), b"\n".as_slice()], w)
}

/// Writes a set as a list, or `-` for the empty one.
pub fn put_set<W: Write>(set: &IdSet, w: &mut W) -> io::Result<()>
    ensures { Writes (W.contents w.old) (W.contents w.new) result (set_text set.now) }
{
    if set.is_empty() {
        return put(b"-", w);
    }
    write_list(set, w)
}

/// Writes a set behind its name.
pub fn put_labelled<W: Write>(label: &[u8], set: &IdSet, w: &mut W) -> io::Result<()>
    ensures { Writes (W.contents w.old) (W.contents w.new) result (label.now ++ set_text set.now) }
{
    put(label, w)?;
    put_set(set, w)
}

fn put_both<W: Write>(
    label: &[u8],
    requested: &IdSet,
    effective: &IdSet,
    w: &mut W,
) -> io::Result<()>
    ensures { Writes (W.contents w.old) (W.contents w.new) result (both_text label.now requested.now effective.now) }
{
    put_labelled(label, requested, w)?;
    put_labelled(b" effective ", effective, w)
}

/// Answers with a container's CPUs and nodes: what its group requests, and what is in effect for it.
pub fn put_sets<W: Write>(sets: &Sets, w: &mut W) -> io::Result<()>
    ensures { Writes (W.contents w.old) (W.contents w.new) result (sets_line sets.now) }
{
    put_both(b"cpus ", &sets.cpus, &sets.effective_cpus, w)?;
    put_both(b" mems ", &sets.mems, &sets.effective_mems, w)?;
    put(b"\n", w)
}

/// Writes a container's id and its status.
fn put_entry<'a, W: Write>(id: &'a str, status: &'a str, w: &mut W) -> io::Result<()>
    ensures { Writes (W.contents w.old) (W.contents w.new) result (id.now
        ++ (codes " " ++ (status.now ++ codes "\n"))) }
{
    put_all(
        &[
            id.as_bytes(),
            b" ".as_slice(),
            status.as_bytes(),
            b"\n".as_slice(),
        ],
        w,
    )
}

/// Answers with the id and the status of each container.
pub fn put_listing<K: Kernel + Drop, W: Write>(node: &Node<K>, w: &mut W) -> io::Result<()>
    ensures { Writes (W.contents w.old) (W.contents w.new) result (listing_text (listing node.now)) }
{
    for (id, status) in node.list() {
        put_entry(id, status.word(), w)?;
    }
    put(b"end\n", w)
}

/// Answers with how far the last plan has been carried out.
pub fn put_phase<W: Write>(phase: Phase, w: &mut W) -> io::Result<()>
    ensures { Writes (W.contents w.old) (W.contents w.new) result (phase_line phase) }
{
    match phase {
        Phase::Settled => put(b"settled\n", w),
        Phase::Underway => put(b"underway\n", w),
        Phase::Unsettled => put(b"unsettled\n", w),
    }
}
