//! Calls of a kernel, made from values. The crates `tools` and `scenarios` put lists of them together.
ghost use Rattle.std.specs.Prelude.{◌≡◌, IfOk, OnErr};
ghost use Rattle.faults.specs.Calls.{behind};
ghost use Rattle.kernel_model.specs.Runs.{Step, Run, reply_at_once};

use cpu_set::IdSet;
use faults::OrMemory;
use kernel_model::{Call, Kernel, KernelFault, Reply};
use std::alloc::{AllocError, Global};

/// Makes one call of a kernel.
///
/// # Errors
/// Those of the kernel's own call.
pub fn make_call<K: Kernel>(kernel: &mut K, call: &Call) -> Result<Reply, OrMemory<KernelFault>>
    ensures { Step (K.state kernel.old) call.now result (K.state kernel.new) }
{
    match call {
        Call::MakeGroup(parent, name) => kernel
            .make_group(*parent, name.as_str())
            .map(Reply::Group),
        Call::RemoveGroup(group) => done(kernel.remove_group(*group)),
        Call::WriteCpus(group, cpus) => done(kernel.write_cpus(*group, *cpus)),
        Call::WriteMems(group, mems) => done(kernel.write_mems(*group, *mems)),
        Call::Spawn(group) => kernel.spawn(*group).map(Reply::Pid),
        Call::EndGroup(group) => done(kernel.end_group(*group)),
        Call::Root => Ok(Reply::Group(kernel.root())),
        Call::FindGroup(parent, name) => kernel
            .find_group(*parent, name.as_str())
            .map(Reply::Found)
            .map_err(OrMemory::Fault),
        Call::RequestedCpus(group) => ids(kernel.requested_cpus(*group)),
        Call::EffectiveCpus(group) => ids(kernel.effective_cpus(*group)),
        Call::RequestedMems(group) => ids(kernel.requested_mems(*group)),
        Call::EffectiveMems(group) => ids(kernel.effective_mems(*group)),
        Call::Online => Ok(Reply::Ids(kernel.online())),
        Call::Nodes => Ok(Reply::Ids(kernel.nodes())),
        Call::FirstAlive(pid) => Ok(Reply::Alive(kernel.first_alive(*pid))),
        Call::Fork(parent) => kernel.fork(*parent).map(Reply::Pid),
        Call::Exit(pid) => done(kernel.exit(*pid)),
        Call::Offline(cpu) => done(kernel.offline(*cpu)),
        Call::OnlineCpu(cpu) => done(kernel.online_cpu(*cpu)),
    }
}

/// The reply of a call that returns nothing.
fn done(answer: Result<(), KernelFault>) -> Result<Reply, OrMemory<KernelFault>>
    ensures { result ≡ reply_at_once (λ _. Reply.Done) answer }
{
    answer.map(|_| Reply::Done).map_err(OrMemory::Fault)
}

/// The reply of a call that returns a set.
fn ids(answer: Result<&IdSet, KernelFault>) -> Result<Reply, OrMemory<KernelFault>>
    ensures { result ≡ reply_at_once Reply.Ids (behind answer.entry) }
{
    answer.map(|ids| Reply::Ids(*ids)).map_err(OrMemory::Fault)
}

/// Makes calls of a kernel, one after another, and keeps what they answered.
///
/// # Errors
/// An allocation failure of the answers, before the first call.
pub fn make_calls<K: Kernel>(
    alloc: Global,
    kernel: &mut K,
    calls: &[Call],
) -> Result<Vec<Result<Reply, OrMemory<KernelFault>>>, AllocError>
    // The answers, and the state that it leaves, are those of the cases taken in order. It is proved once for any
    // kernel.
    ensures ok { IfOk result (λ replies. Run (K.state kernel.old) calls.now replies.items (K.state kernel.new)) }
    ensures err { OnErr result (K.state kernel.new ≡ K.state kernel.old) }
{
    let mut replies = Vec::with_capacity(alloc, calls.len())?;
    for call in calls {
        replies.push_reserved(make_call(kernel, call));
    }
    Ok(replies)
}
