//! Scripts over a kernel of which a write fails, and what is in that kernel then.

use crate::calls;
use crate::lent::Lent;
use crate::pieces::{Paper, Tape, kind};
use anyhow::{Result, bail};
use kernel_doubles::FusedKernel;
use kernel_model::{Kernel, ModelKernel};
use machine::Machine;
use node::Node;
use runtime::{BundleList, FIRST_PID, Runner};
use script::{ScriptFault, run_script};
use std::fs;
use std::io::ErrorKind;
use std::rt::Files;

/// How a script is read and its answers are written: words `MOST READ WIDTH WRITES WRITE`, where READ is the reader's
/// fault at the end, or `end`, and WRITES how many writes are taken before the fault WRITE, or `stuck` where each flush
/// has it.
#[derive(Drop)]
struct Streams {
    most: usize,
    read: Option<ErrorKind>,
    width: usize,
    writes: usize,
    write: ErrorKind,
    stuck: bool,
}

fn streams_of(words: &[String]) -> Result<Streams> {
    let [most, read, width, writes, write] = words else {
        bail!("tools run FAIL MOST READ WIDTH WRITES WRITE MACHINE BUNDLE..");
    };
    let stuck = writes.as_str() == "stuck";
    Ok(Streams {
        most: most.as_str().parse()?,
        read: match read.as_str() {
            "end" => None,
            read => Some(kind(read)?),
        },
        width: width.as_str().parse()?,
        writes: if stuck {
            usize::MAX
        } else {
            writes.as_str().parse()?
        },
        write: kind(write.as_str())?,
        stuck,
    })
}

/// `run FAIL MOST READ WIDTH WRITES WRITE MACHINE BUNDLE..`: runs a script over a kernel of which the write of this
/// number fails, and prints what came of it and the answers; and what the kernel answers to the calls behind a line
/// `kernel`.
pub fn over_files<R: AllocGlobal + Files + Print>(
    rt: &R,
    words: &[String],
    text: &[u8],
) -> Result<()> {
    let [fail, _, _, _, _, _, path, names @ ..] = words else {
        bail!("tools run FAIL MOST READ WIDTH WRITES WRITE MACHINE BUNDLE..");
    };
    let streams = streams_of(&words[1..6])?;
    let json = fs::read(rt, path.as_str())?;
    let Ok(machine) = Machine::read(rt.alloc(), json.as_slice(), None) else {
        bail!("{path} is no machine");
    };
    let configs = configs(rt, names)?;
    let mut bundles = Vec::new(rt.alloc());
    for (name, config) in names.iter().zip(configs.as_slice()) {
        bundles.push((name.as_str(), config.as_slice()))?;
    }
    let list = BundleList::new(rt.alloc(), bundles.as_slice());
    run(rt, fail.as_str().parse()?, &streams, machine, list, text)
}

/// The config of each bundle, from the file `NAME/config.json`.
fn configs<R: AllocGlobal + Files>(rt: &R, names: &[String]) -> Result<Vec<Vec<u8>>> {
    let mut configs = Vec::new(rt.alloc());
    for name in names {
        let path = format!(in rt.alloc(); "{name}/config.json")?;
        configs.push(fs::read(rt, path.as_str())?)?;
    }
    Ok(configs)
}

fn run<R: AllocGlobal + Print>(
    rt: &R,
    fail: u64,
    streams: &Streams,
    machine: Machine,
    bundles: BundleList<'_>,
    text: &[u8],
) -> Result<()> {
    let text = str::from_utf8(text)?;
    let (script, calls) = text.split_once("kernel\n").unwrap_or((text, ""));
    let kernel = ModelKernel::new(
        rt.alloc(),
        machine.present(),
        machine.reserved(),
        machine.boot_online(),
        machine.nodes(),
        FIRST_PID,
    )?;
    let mut kernel = FusedKernel::new(kernel, fail);
    node::laws::first_kernels();
    let lent = Lent {
        kernel: &mut kernel,
    };
    match Node::new(rt.alloc(), lent, machine) {
        Ok(node) => answer(rt, streams, Runner::new(node, bundles), script)?,
        Err(refused) => {
            let error = refused.error;
            println!(rt; "{error:?}")?;
        }
    }
    calls::each(rt, &mut kernel, calls)
}

/// Runs the script, and prints how it ended, and its answers.
fn answer<R: AllocGlobal + Print, K: Kernel + Drop>(
    rt: &R,
    streams: &Streams,
    runner: Runner<K, BundleList<'_>>,
    script: &str,
) -> Result<()> {
    let mut paper = Paper {
        taken: Vec::new(rt.alloc()),
        width: streams.width,
        writes: streams.writes,
        fault: streams.write,
        stuck: streams.stuck,
    };
    let ended = played(streams, runner, script, &mut paper);
    println!(rt; "{ended:?}")?;
    rt.print(str::from_utf8(paper.taken.as_slice())?)?;
    Ok(())
}

/// How the script ended; its answers are on the paper.
fn played<K: Kernel + Drop>(
    streams: &Streams,
    runner: Runner<K, BundleList<'_>>,
    script: &str,
    paper: &mut Paper,
) -> Result<(), ScriptFault> {
    let mut runner = runner;
    let mut tape = Tape {
        rest: script.as_bytes(),
        most: streams.most,
        fault: streams.read,
    };
    run_script(&mut runner, &mut tape, paper)
}
