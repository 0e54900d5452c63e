//! Problems, solved.

use crate::problems::{problem_of, problems_of};
use anyhow::{Result, bail};
use certificate::{Plan, Prices, Problem, rows_fit};
use std::alloc::Global;
use transport::{Answer, solve};

/// Prints what comes of the problems of certificates, which stand one after another.
pub fn each<R: AllocGlobal + Print>(rt: &R, texts: &[u8]) -> Result<()> {
    let problems = problems_of(rt.alloc(), texts)?;
    for problem in &problems {
        one(rt, problem)?;
    }
    Ok(())
}

/// Prints what comes of a problem.
fn one<R: AllocGlobal + Print>(rt: &R, problem: &Problem) -> Result<()> {
    if !rows_fit(problem.rows.as_slice()) {
        bail!("the rows are past their limits");
    }
    match solve(rt.alloc(), problem)? {
        Answer::Plan {
            plan,
            prices,
            total,
            turns,
        } => {
            print_sets(rt, &plan, &prices)?;
            print_prices(rt, &prices)?;
            println!(rt; "total {total}")?;
            print_turns(rt, turns)
        }
        Answer::Short { members, turns } => {
            print_members(rt, members.as_slice())?;
            print_turns(rt, turns)
        }
    }
}

/// What each row holds, and its value.
fn print_sets<R: AllocGlobal + Print>(rt: &R, plan: &Plan, prices: &Prices) -> Result<()> {
    for (set, value) in plan.sets.iter().zip(prices.values.as_slice()) {
        let held = cpu_list::print(rt.alloc(), set)?;
        println!(rt; "hold {held} {value}")?;
    }
    Ok(())
}

fn print_prices<R: AllocGlobal + Print>(rt: &R, prices: &Prices) -> Result<()> {
    for at in 0..prices.of_cpu.len() {
        let price = prices.of_cpu.price(at);
        let cpus = cpu_list::print(rt.alloc(), &price.cpus)?;
        let amount = price.amount;
        println!(rt; "price {amount} {cpus}")?;
    }
    Ok(())
}

/// The numbers of the rows that lack CPUs.
fn print_members<R: Print>(rt: &R, members: &[usize]) -> Result<()> {
    for k in members {
        println!(rt; "short {k}")?;
    }
    Ok(())
}

fn print_turns<R: Print>(rt: &R, turns: u64) -> Result<()> {
    println!(rt; "turns {turns}")?;
    Ok(())
}

/// A certificate's problem, solved so often.
pub fn over_and_over(alloc: Global, text: &[u8], count: u32) -> Option<u64> {
    let problem = problem_of(alloc, text).ok()??;
    if !rows_fit(problem.rows.as_slice()) {
        return None;
    }
    let mut sum: u64 = 0;
    for _ in 0..count {
        let answer = solve(alloc, &problem).ok()?;
        sum = sum.wrapping_add(turns_of(&answer));
    }
    Some(sum)
}

fn turns_of(answer: &Answer) -> u64 {
    match answer {
        Answer::Plan { turns, .. } => *turns,
        Answer::Short { turns, .. } => *turns,
    }
}
