//! The workloads.

use crate::chance::Chance;
use crate::machines::{CPUS, MachineFile};
use crate::requests::Request;
use crate::scripts::Script;
use crate::tape::{Digest, Kept, Tape};
use crate::{machines, requests};
use anyhow::Result;
use certificate_text::check_text;
use machine::Machine;
use runtime::{BundleList, Runner, boot};
use script::run_script;
use std::alloc::Global;
use std::io::Write;

/// Runs a script over the containers of a machine, and writes its answers. None where the machine is none.
fn played<W: Write>(
    alloc: Global,
    machine: &MachineFile,
    requests: &[Request],
    script: &str,
    w: &mut W,
) -> Result<Option<()>> {
    let Ok(machine) = Machine::read(alloc, machine.text.as_bytes(), None) else {
        return Ok(None);
    };
    let mut bundles = Vec::new(alloc);
    for request in requests {
        bundles.push((request.name.as_str(), request.config.as_bytes()))?;
    }
    let node = boot(alloc, machine)?;
    let mut runner = Runner::new(node, BundleList::new(alloc, bundles.as_slice()));
    let mut tape = Tape {
        rest: script.as_bytes(),
    };
    Ok(run_script(&mut runner, &mut tape, w).ok())
}

/// The digest of a script's answers.
fn digest(
    alloc: Global,
    machine: &MachineFile,
    requests: &[Request],
    script: &str,
) -> Result<Option<u64>> {
    let mut digest = Digest::new();
    let played = played(alloc, machine, requests, script, &mut digest)?;
    Ok(played.map(|_| digest.value))
}

/// Containers come and go on a machine, and now and then a CPU; a plan after each.
pub fn turnover(
    alloc: Global,
    machine: &MachineFile,
    chance: &mut Chance,
    size: u32,
    count: u32,
) -> Result<Option<u64>> {
    let requests = requests::plain(alloc, chance, size, machine.nodes)?;
    let mut script = Script::new(alloc);
    script.create_all(0, size)?;
    script.say("rebalance")?;
    for _ in 0..count {
        script.replace(chance)?;
        script.say("rebalance")?;
        if chance.below(4) == 0 {
            script.lose(chance, machine.cpus)?;
            script.say("rebalance")?;
        }
    }
    digest(alloc, machine, requests.as_slice(), script.text.as_str())
}

/// Containers come in eight parts, a plan after each; then so many are replaced, a plan after each.
pub fn own_cores(alloc: Global, chance: &mut Chance, size: u32, count: u32) -> Result<Option<u64>> {
    let requests = requests::own_cores(alloc, chance, size)?;
    let machine = machines::of_siblings(alloc)?;
    let mut script = Script::new(alloc);
    let part = (size / 8).saturating_add(1);
    for k in 0..8u32 {
        let from = part.saturating_mul(k).min(size);
        script.create_all(from, from.saturating_add(part).min(size))?;
        script.say("rebalance")?;
    }
    for _ in 0..count {
        script.replace(chance)?;
        script.say("rebalance")?;
    }
    digest(alloc, &machine, requests.as_slice(), script.text.as_str())
}

/// CPUs go and come, ten processes fork at a time and later exit, and plans are handed over write by write.
pub fn events(alloc: Global, chance: &mut Chance, size: u32, count: u32) -> Result<Option<u64>> {
    let requests = requests::plain(alloc, chance, size, 128)?;
    let machine = machines::large(alloc)?;
    let mut script = Script::new(alloc);
    script.create_all(0, size)?;
    step_through(&mut script, size)?;
    for _ in 0..count {
        script.lose(chance, CPUS)?;
        for _ in 0..10 {
            script.ask("fork", chance.below(size).saturating_add(2))?;
        }
    }
    for k in 0..count.saturating_mul(10) {
        script.ask("exit", k.saturating_add(size).saturating_add(2))?;
    }
    script.replace(chance)?;
    step_through(&mut script, size / 8)?;
    digest(alloc, &machine, requests.as_slice(), script.text.as_str())
}

/// Begins a hand-over, and makes so many steps of it.
fn step_through(script: &mut Script, steps: u32) -> Result<()> {
    script.say("begin")?;
    for _ in 0..steps {
        script.say("step")?;
    }
    script.say("phase")?;
    Ok(())
}

/// Plans of so many machines' containers, each with a CPU list of half of the machine; their certificates are checked.
pub fn certificates(
    alloc: Global,
    chance: &mut Chance,
    size: u32,
    count: u32,
) -> Result<Option<u64>> {
    let mut digest = Digest::new();
    let machine = machines::of_siblings(alloc)?;
    for _ in 0..count {
        let requests = requests::with_halves(alloc, chance, size, CPUS)?;
        let mut script = Script::new(alloc);
        script.create_all(0, size)?;
        script.say("rebalance\ncertificate")?;
        let mut answers = Kept {
            bytes: Vec::new(alloc),
        };
        if played(
            alloc,
            &machine,
            requests.as_slice(),
            script.text.as_str(),
            &mut answers,
        )?
        .is_none()
        {
            return Ok(None);
        }
        digest.add(answers.bytes.as_slice());
        add_verdict(alloc, &mut digest, answers.bytes.as_slice())?;
    }
    Ok(Some(digest.value))
}

/// Adds what the check says of the certificate at the end of a script's answers.
fn add_verdict(alloc: Global, digest: &mut Digest, answers: &[u8]) -> Result<()> {
    let text = after_plan(answers);
    let verdict = match check_text(alloc, text) {
        Ok(verdict) => format!(in alloc; "{verdict:?}")?,
        Err(_) => format!(in alloc; "refused")?,
    };
    digest.add(verdict.as_bytes());
    Ok(())
}

/// What follows the first line `end`.
fn after_plan(answers: &[u8]) -> &[u8] {
    let mut rest = answers;
    for _ in 0..answers.len() {
        if rest.starts_with(b"\nend\n") {
            return &rest[5..];
        }
        match rest {
            [_, later @ ..] => rest = later,
            [] => return rest,
        }
    }
    rest
}

/// So many machines and lists by which each container displaces many others; a plan, and one more where one was
/// replaced.
pub fn awkward(alloc: Global, chance: &mut Chance, size: u32, count: u32) -> Result<Option<u64>> {
    let mut sum = Digest::new();
    let cpus = size.saturating_mul(4).min(CPUS);
    for _ in 0..count {
        let machine = machines::awkward(alloc, chance, cpus)?;
        let requests = requests::displacing(alloc, chance, size, cpus)?;
        let mut script = Script::new(alloc);
        script.create_all(0, size)?;
        script.say("rebalance")?;
        script.replace(chance)?;
        script.say("rebalance")?;
        let Some(value) = digest(alloc, &machine, requests.as_slice(), script.text.as_str())? else {
            return Ok(None);
        };
        sum.add(&value.to_le_bytes());
    }
    Ok(Some(sum.value))
}
