//! A node and its bundles, over which a script is run.
ghost use Rattle.std.specs.Prelude.{◌≡◌};
ghost use Rattle.kernel_model.specs.Cases.{ComesOnline, GoesOffline};
ghost use Rattle.node.specs.Machine.{InKernel};
ghost use Rattle.script.specs.Commands.{asked};
ghost use Rattle.script.specs.Ends.{Replies};
ghost use Rattle.runtime.specs.Answered.{AnsweredBy, AnswersBy};
ghost use Rattle.runtime.specs.Found.{IsSeen};

use crate::adopting::adopt;
use crate::bundles::Bundles;
use crate::commands::{create, delete, forget, kill, start};
use crate::events::{exit, fork, offline, online};
use crate::plans::{begin, begin_directly, certificate, rebalance, rebalance_directly, step};
use crate::queries::{list, phase, sets, state};
use crate::updating::update;
use kernel_model::{Kernel, KernelFault};
use node::Node;
use script::{Command, Target};
use std::io;
use std::io::Write;
use std::marker::Model;

/// The containers of one machine and the bundles that they are made of: what a script is run over.
#[derive(Drop)]
pub struct Runner<K: Kernel + Drop, B: Bundles + Drop> {
    node: Node<K>,
    bundles: B,
}

impl<K: Kernel + Drop, B: Bundles + Drop> Model for Runner<K, B> {
    ghost use Rattle.runtime.specs.RuntimeState.{RuntimeState, runtime_code};

    ghost Value = { RuntimeState };

    ghost coded = { runtime_code };

    ghost view = { λ r. record { node = r.node; told = B.told r.bundles } };
}

impl<K: Kernel + Drop, B: Bundles + Drop> Runner<K, B> {
    /// A runtime over a node, which may have containers already.
    pub fn new(node: Node<K>, bundles: B) -> Runner<K, B>
        ensures { result ≡ record { node = node; told = B.told bundles } }
    {
        Runner { node, bundles }
    }

    /// The node, to look at.
    pub fn node(&self) -> &Node<K>
        ensures { result.now ≡ self.now.node }
    {
        &self.node
    }

    /// A CPU goes offline, as by a line `offline CPU` whose answer nobody reads.
    pub fn offline(&mut self, cpu: u32) -> Result<(), KernelFault>
        ensures offline { GoesOffline self.old.node.kernel cpu result self.new.node.kernel }
        ensures kernel { InKernel self.old.node self.new.node }
        ensures told { self.new.told ≡ self.old.told }
    {
        self.node.offline(cpu)
    }

    /// A CPU comes online, as by a line `online CPU` whose answer nobody reads.
    pub fn online(&mut self, cpu: u32) -> Result<(), KernelFault>
        ensures online { ComesOnline self.old.node.kernel cpu result self.new.node.kernel }
        ensures kernel { InKernel self.old.node self.new.node }
        ensures told { self.new.told ≡ self.old.told }
    {
        self.node.online_cpu(cpu)
    }

    /// The node, handed back once the runtime is done with.
    pub fn into_node(self) -> Node<K>
        ensures { result ≡ self.node }
    {
        self.node
    }
}

impl<K: Kernel + Drop, B: Bundles + Drop> Target for Runner<K, B> {
    ghost answers = { AnsweredBy B.finds };

    fn answer<W: Write>(&mut self, command: Command<'_>, w: &mut W) -> io::Result<()> {
        dispatch(&mut self.node, &mut self.bundles, command, w)
    }
}

/// Hands the command to the function that carries it out and writes the answer.
fn dispatch<K: Kernel + Drop, B: Bundles, W: Write>(
    node: &mut Node<K>,
    bundles: &mut B,
    command: Command<'_>,
    w: &mut W,
) -> io::Result<()>
    ensures answers { Replies (AnswersBy (IsSeen B.finds (B.told bundles.old)) node.old (asked command.entry))
        (W.contents w.old) (W.contents w.new) result node.new }
    ensures same { B.told bundles.new ≡ B.told bundles.old }
{
    match command {
        Command::Create { id, bundle } => create(node, bundles, id, bundle, w),
        Command::Adopt { id, bundle, cpus } => adopt(node, bundles, id, bundle, cpus, w),
        Command::Update { id, bundle } => update(node, bundles, id, bundle, w),
        Command::Start { id } => start(node, id, w),
        Command::Kill { id, signal } => kill(node, id, signal, w),
        Command::Delete { id } => delete(node, id, w),
        Command::Forget { .. } => forget(node, w),
        Command::State { id } => state(node, id, w),
        Command::List => list(node, w),
        Command::Sets { id } => sets(node, id, w),
        Command::Rebalance => rebalance(node, w),
        Command::RebalanceDirectly => rebalance_directly(node, w),
        Command::Begin => begin(node, w),
        Command::BeginDirectly => begin_directly(node, w),
        Command::Step => step(node, w),
        Command::Phase => phase(node, w),
        Command::Certificate => certificate(node, w),
        Command::Fork { pid } => fork(node, pid, w),
        Command::Exit { pid } => exit(node, pid, w),
        Command::Offline { cpu } => offline(node, cpu, w),
        Command::Online { cpu } => online(node, cpu, w),
    }
}
