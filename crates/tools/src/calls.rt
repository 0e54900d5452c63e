//! Calls of a kernel, a line each.
ghost use Rattle.std.specs.Prelude.{IfOk};
ghost use Rattle.cgroup_tree.specs.Site.{Begins};
ghost use Rattle.tools.specs.StartLemmas.{beginning_of};

use anyhow::{Context, Result, bail};
use cpu_set::{CPU_LIMIT, IdSet};
use faults::OrMemory;
use kernel_doubles::{FusedKernel, make_calls};
use kernel_model::{Call, Group, Kernel, LAST_PID, ModelKernel, Reply};
use std::alloc::{AllocError, Global};

/// `kernel FAIL`: a line `PRESENT RESERVED ONLINE NODES PID` of sets and the first pid, and calls over that kernel, of
/// which the write of this number fails.
pub fn over_new<R: AllocGlobal + Print>(rt: &R, words: &[String], text: &[u8]) -> Result<()> {
    let [fail] = words else {
        bail!("tools kernel FAIL");
    };
    let (first, calls) = str::from_utf8(text)?.split_once('\n').context("no line")?;
    let kernel = new_kernel(rt.alloc(), first)?;
    let mut kernel = FusedKernel::new(kernel, fail.as_str().parse()?);
    each(rt, &mut kernel, calls)
}

/// The kernel of such a line, as it begins.
pub fn new_kernel(alloc: Global, line: &str) -> Result<ModelKernel>
    ensures { IfOk result (λ k. Begins (beginning_of k) k) }
{
    let words: Vec<&str> = line.split(' ').collect(alloc)?;
    let [present, reserved, online, nodes, pid] = words.as_slice() else {
        bail!("{line} is no kernel");
    };
    let (present, reserved, online) = (ids(present)?, ids(reserved)?, ids(online)?);
    let nodes = ids(nodes)?;
    let pid: u32 = pid.parse()?;
    if reserved.is_empty() || !reserved.is_subset(&online) || !online.is_subset(&present) {
        bail!("{line} is no kernel");
    }
    if pid < 2 || pid > LAST_PID {
        bail!("{pid} is no first pid");
    }
    let kernel = ModelKernel::new(alloc, present, reserved, online, nodes, pid)?;
    Ok(kernel)
}

/// Makes each call, and prints what it answers. A group is named by its serial. As many calls as possible are made as
/// one list: those up to the first that names a group which one of them answers.
pub fn each<R: AllocGlobal + Print, K: Kernel>(rt: &R, kernel: &mut K, calls: &str) -> Result<()> {
    let mut seen = Vec::new(rt.alloc());
    seen.push(kernel.root())?;
    let mut waiting = Vec::new(rt.alloc());
    for line in calls.split('\n') {
        if line.is_empty() {
            continue;
        }
        let call = match call_in(rt.alloc(), seen.as_slice(), line) {
            Ok(call) => call,
            Err(_) => {
                make(rt, kernel, waiting.as_slice(), &mut seen)?;
                waiting.clear();
                call_in(rt.alloc(), seen.as_slice(), line)?
            }
        };
        waiting.push(call)?;
    }
    make(rt, kernel, waiting.as_slice(), &mut seen)
}

/// Makes each call, and prints what it answers before the next is made. A group is named by its serial.
pub fn one_by_one<R: AllocGlobal + Print, K: Kernel>(
    rt: &R,
    kernel: &mut K,
    lines: &str,
) -> Result<()> {
    let mut seen = Vec::new(rt.alloc());
    seen.push(kernel.root())?;
    for line in lines.lines() {
        let call = call_in(rt.alloc(), seen.as_slice(), line)?;
        make(rt, kernel, &[call], &mut seen)?;
    }
    Ok(())
}

/// Makes the calls, one after another, and prints what each answers.
fn make<R: AllocGlobal + Print, K: Kernel>(
    rt: &R,
    kernel: &mut K,
    calls: &[Call],
    seen: &mut Vec<Group>,
) -> Result<()> {
    let replies = make_calls(rt.alloc(), kernel, calls)?;
    for reply in replies.as_slice() {
        match reply {
            Ok(reply) => print(rt, reply, seen)?,
            Err(OrMemory::Memory) => println!(rt; "refused Memory")?,
            Err(OrMemory::Fault(fault)) => println!(rt; "refused {fault:?}")?,
        }
    }
    Ok(())
}

/// Prints a reply, and keeps a group that it names.
fn print<R: AllocGlobal + Print>(rt: &R, reply: &Reply, seen: &mut Vec<Group>) -> Result<()> {
    match reply {
        Reply::Done => println!(rt; "ok")?,
        Reply::Group(group) => print_group(rt, *group, seen)?,
        Reply::Found(Some(group)) => print_group(rt, *group, seen)?,
        Reply::Found(None) => println!(rt; "none")?,
        Reply::Pid(pid) => println!(rt; "pid {pid}")?,
        Reply::Ids(set) => print_ids(rt, set)?,
        Reply::Alive(alive) => println!(rt; "{alive}")?,
    }
    Ok(())
}

fn print_group<R: AllocGlobal + Print>(rt: &R, group: Group, seen: &mut Vec<Group>) -> Result<()> {
    let serial = group.serial;
    println!(rt; "group {serial}")?;
    seen.push(group)?;
    Ok(())
}

/// Prints a set; `-` is the empty one.
fn print_ids<R: AllocGlobal + Print>(rt: &R, set: &IdSet) -> Result<()> {
    if set.is_empty() {
        println!(rt; "ids -")?;
        return Ok(());
    }
    let list = cpu_list::print(rt.alloc(), set)?;
    println!(rt; "ids {list}")?;
    Ok(())
}

/// The call that a line spells.
fn call_in(alloc: Global, seen: &[Group], line: &str) -> Result<Call> {
    let words: Vec<&str> = line.split(' ').collect(alloc)?;
    let Some(call) = call_of(alloc, seen, words.as_slice())? else {
        bail!("{line} is no call");
    };
    Ok(call)
}

/// The call of a line's words.
fn call_of(alloc: Global, seen: &[Group], words: &[&str]) -> Result<Option<Call>> {
    match words {
        ["root"] => Ok(Some(Call::Root)),
        ["online"] => Ok(Some(Call::Online)),
        ["nodes"] => Ok(Some(Call::Nodes)),
        [what, number] => of_number(seen, what, number.parse()?),
        [what, number, rest] => {
            let group = group_of(seen, number.parse()?)?;
            of_group_and(alloc, what, group, rest)
        }
        _ => Ok(None),
    }
}

/// A call of one group, pid or CPU.
fn of_number(seen: &[Group], what: &str, number: u32) -> Result<Option<Call>> {
    let call = match what {
        "alive" => Call::FirstAlive(number),
        "fork" => Call::Fork(number),
        "exit" => Call::Exit(number),
        "offline" => Call::Offline(number),
        "online" => Call::OnlineCpu(number),
        _ => return Ok(of_group(what, group_of(seen, u64::from(number))?)),
    };
    Ok(Some(call))
}

/// A call of one group.
fn of_group(what: &str, group: Group) -> Option<Call> {
    match what {
        "remove" => Some(Call::RemoveGroup(group)),
        "spawn" => Some(Call::Spawn(group)),
        "end" => Some(Call::EndGroup(group)),
        "cpus" => Some(Call::RequestedCpus(group)),
        "cpus.effective" => Some(Call::EffectiveCpus(group)),
        "mems" => Some(Call::RequestedMems(group)),
        "mems.effective" => Some(Call::EffectiveMems(group)),
        _ => None,
    }
}

/// A call of a group with a name or a set.
fn of_group_and(alloc: Global, what: &str, group: Group, rest: &str) -> Result<Option<Call>> {
    let call = match what {
        "make" => Call::MakeGroup(group, String::from_str(alloc, rest)?),
        "find" => Call::FindGroup(group, String::from_str(alloc, rest)?),
        "cpus" => Call::WriteCpus(group, ids(rest)?),
        "mems" => Call::WriteMems(group, ids(rest)?),
        _ => return Ok(None),
    };
    Ok(Some(call))
}

/// The group of a serial, of those that were answered.
fn group_of(seen: &[Group], serial: u64) -> Result<Group> {
    for group in seen {
        if group.serial == serial {
            return Ok(*group);
        }
    }
    bail!("no group {serial} was answered")
}

/// The set of a list; `-` is the empty one.
pub fn ids(text: &str) -> Result<IdSet> {
    let list = if text == "-" { "" } else { text };
    match cpu_list::read(list.as_bytes(), CPU_LIMIT) {
        Ok(set) => Ok(set),
        Err(_) => bail!("{text} is no list"),
    }
}
