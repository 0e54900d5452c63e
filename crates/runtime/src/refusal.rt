//! Why a command is refused, and the line that says so.
ghost use Rattle.std.specs.Prelude.{◌≡◌};
ghost use Rattle.byte_output.specs.Output.{Writes};
ghost use Rattle.runtime.specs.AnswerTexts.{of_either, of_kernel, of_kernel_fault};
ghost use Rattle.runtime.specs.RefusalLine.{arguments_of, config_arguments, demand_arguments, list_argument};
ghost use Rattle.runtime.specs.RefusalLine.{node_arguments, refusal_line, title_of};

use byte_output::{put, put_all, put_argument, put_word};
use config_json::ConfigFault;
use cpu_list::ListError;
use demand::DemandFault;
use faults::{OrMemory, memory_title};
use kernel_model::KernelFault;
use node::NodeFault;
use std::io;
use std::io::Write;

/// Why a command is refused.
#[derive(Clone, Copy, Debug, PartialEq, Eq)]
pub enum Refusal {
    /// E1: an allocation failed.
    Memory,
    /// E40 to E67, E90 to E101 and E104: the node or the kernel refuses the call, or a write of the kernel failed in
    /// it.
    Node(NodeFault),
    /// E102: the CPUs that a container has already are no list.
    BadSet(ListError),
    /// E103: the list of the CPUs that a container has already names none.
    NoCpus,
    /// E105: no group that was there before the run has the id.
    NoStranger,
    /// E111: there is no such bundle, or its config can't be read.
    NoBundle,
}

impl Refusal {
    /// The refusal's number and its name.
    fn title(self) -> &'static str
        ensures { result.now ≡ title_of self }
    {
        match self {
            Refusal::Memory => memory_title(),
            Refusal::Node(fault) => fault.title(),
            Refusal::BadSet(_) => "E102 BadSet",
            Refusal::NoCpus => "E103 NoCpus",
            Refusal::NoStranger => "E105 NoStranger",
            Refusal::NoBundle => "E111 NoBundle",
        }
    }

    /// Writes each argument behind a space.
    fn write_arguments<W: Write>(self, w: &mut W) -> io::Result<()>
        ensures { Writes (W.contents w.old) (W.contents w.new) result (arguments_of self) }
    {
        match self {
            Refusal::Node(fault) => put_node_arguments(fault, w),
            Refusal::BadSet(error) => put_list_error(error, w),
            Refusal::Memory | Refusal::NoCpus | Refusal::NoStranger | Refusal::NoBundle => Ok(()),
        }
    }

    /// Writes the refusal's line.
    ///
    /// # Errors
    /// That of the first write that fails or takes no byte; a prefix of the line then went out.
    pub fn write<W: Write>(self, w: &mut W) -> io::Result<()>
        ensures { Writes (W.contents w.old) (W.contents w.new) result (refusal_line self) }
    {
        put_all(&[b"refused ".as_slice(), self.title().as_bytes()], w)?;
        self.write_arguments(w)?;
        put(b"\n", w)
    }
}

impl From<OrMemory<NodeFault>> for Refusal {
    ghost from_gives = { λ error refusal. refusal ≡ of_either error };

    fn from(error: OrMemory<NodeFault>) -> Refusal {
        match error {
            OrMemory::Memory => Refusal::Memory,
            OrMemory::Fault(fault) => Refusal::Node(fault),
        }
    }
}

impl From<KernelFault> for Refusal {
    ghost from_gives = { λ fault refusal. refusal ≡ of_kernel_fault fault };

    fn from(fault: KernelFault) -> Refusal {
        Refusal::Node(NodeFault::Kernel(fault))
    }
}

impl From<OrMemory<KernelFault>> for Refusal {
    ghost from_gives = { λ error refusal. refusal ≡ of_kernel error };

    fn from(error: OrMemory<KernelFault>) -> Refusal {
        match error {
            OrMemory::Memory => Refusal::Memory,
            OrMemory::Fault(fault) => Refusal::from(fault),
        }
    }
}

fn put_list_error<W: Write>(error: ListError, w: &mut W) -> io::Result<()>
    ensures { Writes (W.contents w.old) (W.contents w.new) result (list_argument error) }
{
    put_word(error.kind.code(), w)?;
    put_argument(error.at as u64, w)
}

fn put_node_arguments<W: Write>(fault: NodeFault, w: &mut W) -> io::Result<()>
    ensures { Writes (W.contents w.old) (W.contents w.new) result (node_arguments fault) }
{
    match fault {
        NodeFault::Config(fault) => put_config_arguments(fault, w),
        NodeFault::Demand(fault) => put_demand_arguments(fault, w),
        NodeFault::NotFree(cpu) => put_argument(u64::from(cpu), w),
        _ => Ok(()),
    }
}

fn put_config_arguments<W: Write>(fault: ConfigFault, w: &mut W) -> io::Result<()>
    ensures { Writes (W.contents w.old) (W.contents w.new) result (config_arguments fault) }
{
    match fault {
        ConfigFault::Missing(field) | ConfigFault::BadField(field) => put_word(field.path(), w),
        ConfigFault::TooLong
        | ConfigFault::NotJson
        | ConfigFault::NotObject
        | ConfigFault::BadVersion => Ok(()),
    }
}

fn put_demand_arguments<W: Write>(fault: DemandFault, w: &mut W) -> io::Result<()>
    ensures { Writes (W.contents w.old) (W.contents w.new) result (demand_arguments fault) }
{
    match fault {
        DemandFault::BadCpus(error) | DemandFault::BadMems(error) => put_list_error(error, w),
        DemandFault::NoSuchCpu(number) | DemandFault::NoSuchNode(number) => {
            put_argument(u64::from(number), w)
        }
        DemandFault::QuotaTooLarge | DemandFault::NothingAllowed => Ok(()),
    }
}
