//! The texts of plans and shortages.
ghost use Rattle.std.specs.Prelude.{◌≡◌, ◌<◌, ◌++◌, All, IsSome, codes, length, zip};
ghost use Rattle.std.specs.List.{flat_map};
ghost use Rattle.byte_output.specs.Output.{Writes};
ghost use Rattle.runtime.specs.OutcomeTexts.{AreInPlace, end_lines, first_line, hold_line, member_line, named_lines};
ghost use Rattle.runtime.specs.OutcomeTexts.{need_line, outcome_text, pool_lines, progress_line, total_line};

use crate::answers::{put_labelled, put_set};
use byte_output::{put, put_all, put_number};
use certificate::Row;
use cpu_set::IdSet;
use kernel_model::Kernel;
use node::{Named, Node, Outcome, Progress};
use std::io;
use std::io::Write;

fn put_hold<W: Write>(row: &Row, cpus: &IdSet, w: &mut W) -> io::Result<()>
    ensures { Writes (W.contents w.old) (W.contents w.new) result (hold_line (row.now, cpus.now)) }
{
    put_all(
        &[b"hold ".as_slice(), row.id.as_bytes(), b" ".as_slice()],
        w,
    )?;
    put_set(cpus, w)?;
    put(b"\n", w)
}

/// Writes a line for each row of a plan, with its CPUs.
fn put_holds<W: Write>(rows: &[Row], sets: &[IdSet], w: &mut W) -> io::Result<()>
    requires { length sets.now ≡ length rows.now }
    ensures { Writes (W.contents w.old) (W.contents w.new) result (flat_map hold_line (zip rows.now sets.now)) }
{
    for (k, row) in rows.iter().enumerate() {
        put_hold(row, &sets[k], w)?;
    }
    Ok(())
}

fn put_member<W: Write>(row: &Row, w: &mut W) -> io::Result<()>
    ensures { Writes (W.contents w.old) (W.contents w.new) result (codes "member " ++ (row.now.id ++ codes "\n")) }
{
    put_all(
        &[b"member ".as_slice(), row.id.as_bytes(), b"\n".as_slice()],
        w,
    )
}

fn put_members<W: Write>(rows: &[Row], members: &[usize], w: &mut W) -> io::Result<()>
    requires { All (λ k. k < length rows.now) members.now }
    ensures { Writes (W.contents w.old) (W.contents w.new) result (flat_map (member_line rows.now) members.now) }
{
    for k in members {
        put_member(&rows[*k], w)?;
    }
    Ok(())
}

/// Writes a line for each container that is named.
fn put_named<W: Write>(named: Named<'_>, w: &mut W) -> io::Result<()>
    requires { AreInPlace named }
    ensures { Writes (W.contents w.old) (W.contents w.new) result (named_lines named.entry) }
{
    match named {
        Named::Holders { rows, sets } => put_holds(rows, sets, w),
        Named::Members { rows, members } => put_members(rows, members, w),
    }
}

fn put_total<W: Write>(total: u64, w: &mut W) -> io::Result<()>
    ensures { Writes (W.contents w.old) (W.contents w.new) result (total_line total) }
{
    put_number(b"plan total ", total, b"\n", w)
}

fn put_need<W: Write>(asked: u64, allowed: &IdSet, w: &mut W) -> io::Result<()>
    ensures { Writes (W.contents w.old) (W.contents w.new) result (need_line asked allowed.now) }
{
    put_number(b"short demand ", asked, b" allowed ", w)?;
    put_set(allowed, w)?;
    put(b"\n", w)
}

fn put_first<W: Write>(outcome: &Outcome, w: &mut W) -> io::Result<()>
    ensures { Writes (W.contents w.old) (W.contents w.new) result (first_line outcome.now) }
{
    match outcome {
        Outcome::Plan(total) => put_total(*total, w),
        Outcome::Short { asked, allowed } => put_need(*asked, allowed, w),
    }
}

fn put_pool<W: Write>(pool: &IdSet, w: &mut W) -> io::Result<()>
    ensures { Writes (W.contents w.old) (W.contents w.new) result (pool_lines pool.now) }
{
    put_labelled(b"pool ", pool, w)?;
    put(b"\nend\n", w)
}

fn put_last<W: Write>(outcome: &Outcome, pool: &IdSet, w: &mut W) -> io::Result<()>
    ensures { Writes (W.contents w.old) (W.contents w.new) result (end_lines pool.now outcome.now) }
{
    match outcome {
        Outcome::Plan(_) => put_pool(pool, w),
        Outcome::Short { .. } => put(b"end\n", w),
    }
}

/// Writes an outcome, which the node worked out last, with the containers that it names.
pub fn put_outcome<K: Kernel + Drop, W: Write>(
    outcome: &Outcome,
    node: &Node<K>,
    w: &mut W,
) -> io::Result<()>
    requires { IsSome node.now.last }
    ensures { Writes (W.contents w.old) (W.contents w.new) result (outcome_text node.now outcome.now) }
{
    put_first(outcome, w)?;
    put_named(node.named(), w)?;
    put_last(outcome, &node.pool(), w)
}

/// Answers whether a hand-over has a write left.
pub fn put_progress<W: Write>(progress: Progress, w: &mut W) -> io::Result<()>
    ensures { Writes (W.contents w.old) (W.contents w.new) result (progress_line progress) }
{
    match progress {
        Progress::More => put(b"more\n", w),
        Progress::Done => put(b"done\n", w),
    }
}
