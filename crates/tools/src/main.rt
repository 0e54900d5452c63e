//! What `examples/` and `benches/` run; no part of the product.
//!
//! The first word is what is to be done, and most read standard input:
//!
//! - `tools ask MACHINE CONFIG..` prints what bundles ask for on a machine.
//! - `tools list LIMIT`: what a list names, where the limit is at most that of a set.
//! - `tools write WHAT WIDTH FAULT`: what a writer that fails has of a text.
//! - `tools twins`: which rows of certificates have the same offers, and the classes of their CPUs; `tools solve`: what
//!   comes of them.
//! - `tools kernel FAIL`: what a modelled kernel answers to calls.
//! - `tools mirror FAIL MEMORY`: the same, and what is asked of files that fail, where a kernel's writes are made in
//!   them first.
//! - `tools run FAIL MOST READ WIDTH WRITES WRITE MACHINE BUNDLE..`: a script over a kernel and streams that fail.
//!
//! Else it is the name of a benchmark, and the second word how often its work is done: what is printed is a sum over
//! all answers, so that none of the work is idle.
#![tactic(auto)]

mod alike;
mod ask;
mod calls;
mod files;
mod hand_over;
mod kernel;
mod lent;
mod lists;
mod mirror;
mod pieces;
mod problems;
mod runs;
mod solving;
mod writes;

use anyhow::{Context, Result, bail};
use std::alloc::Global;
use std::env;
use std::io::Read;

const WORDS: &str =
    "tools ask, list, write, twins, solve, kernel, mirror or run, or the name of a benchmark and a count";

fn main(rt: HostRuntime) -> Result<()> {
    let words: Vec<String> = env::args(&rt)?.skip(1).collect(rt.alloc())?;
    let (name, words) = words.as_slice().split_first().context(WORDS)?;
    match name.as_str() {
        "ask" => ask::bundles(&rt, words),
        "list" => lists::named(&rt, words, &input(&rt)?),
        "write" => writes::each_fault(&rt, words, &input(&rt)?),
        "twins" => alike::each(&rt, &input(&rt)?),
        "kernel" => calls::over_new(&rt, words, &input(&rt)?),
        "mirror" => mirror::over_files(&rt, words, &input(&rt)?),
        "run" => runs::over_files(&rt, words, &input(&rt)?),
        "solve" if words.is_empty() => solving::each(&rt, &input(&rt)?),
        name => {
            let [count] = words else { bail!(WORDS) };
            let sum = benchmark(&rt, name, count.as_str().parse()?)?;
            println!(rt; "{sum}")?;
            Ok(())
        }
    }
}

fn benchmark<R: AllocGlobal + Input>(rt: &R, name: &str, count: u32) -> Result<u64> {
    let sum = match name {
        "machine" => files::machine(rt.alloc(), &input(rt)?, count),
        "config" => files::config(rt.alloc(), &input(rt)?, count),
        "solve" => solving::over_and_over(rt.alloc(), &input(rt)?, count),
        name => at_once(rt.alloc(), name, count),
    };
    sum.context("no such benchmark, or a call that was refused")
}

/// A benchmark that reads no input.
fn at_once(alloc: Global, name: &str, count: u32) -> Option<u64> {
    match name {
        "lists" => lists::printed_and_read(alloc, count),
        "leaf-writes" => kernel::leaf_writes(alloc, count),
        "online-changes" => kernel::online_changes(alloc, count),
        "plain-leaf-writes" => kernel::plain_leaf_writes(alloc, count),
        "plain-online-changes" => kernel::plain_online_changes(alloc, count),
        "hand-overs" => hand_over::hand_overs(alloc, count),
        "forks" => kernel::forks(alloc, count),
        "forks-and-exits" => kernel::forks_and_exits(alloc, count),
        _ => None,
    }
}

fn input<R: AllocGlobal + Input>(rt: &R) -> Result<Vec<u8>> {
    let mut text = Vec::new(rt.alloc());
    rt.reader().read_to_end(&mut text)?;
    Ok(text)
}
