//! The line of a refusal.
ghost use Rattle.std.specs.Prelude.{◌≡◌};
ghost use Rattle.program_io.specs.FaultRefusal.{machine_refusal, read_refusal, slit_refusal, verdict_refusal};
ghost use Rattle.program_io.specs.declared.refusal.Refusal.TheVariants.{List};
ghost use Rattle.program_io.specs.RefusalLine.{arguments_of, arguments_text, check_arguments_of, machine_arguments_of};
ghost use Rattle.program_io.specs.RefusalLine.{slit_arguments_of, refusal_line, text_of, title_of};
ghost use Rattle.byte_output.specs.Output.{Writes};

use crate::fault::ReadFault;
use byte_output::{put, put_all, put_argument, put_word};
use certificate::CheckFault;
use certificate_text::VerdictFault;
use cpu_list::ListError;
use faults::{OrMemory, memory_title};
use machine::MachineFault;
use slit::SlitFault;
use std::io;
use std::io::Write;

/// Why numarun turns an input down.
#[derive(Clone, Copy, Debug, PartialEq, Eq)]
pub enum Refusal {
    /// E1: an allocation failed.
    Memory,
    /// E10 to E12: the text is no list of CPUs.
    List(ListError),
    /// E15 to E21: the bytes are no distance table.
    Slit(SlitFault),
    /// E25 to E36: the text describes no machine.
    Machine(MachineFault),
    /// E70 to E76: the certificate doesn't pass its check.
    Check(CheckFault),
    /// E77: the line of this number, counted from 1, can't follow those before it.
    BadText { line: u64 },
    /// E113: the input can't be opened or read, or passes a bound.
    ReadFault(ReadFault),
}

/// What a refusal's line names behind its title.
#[derive(Clone, Copy)]
enum Arguments {
    None,
    One(u64),
    Two(u64, u64),
    Word(&'static str),
}

impl Refusal {
    /// The refusal's number and its name.
    fn title(self) -> &'static str
        ensures { result.now ≡ title_of self }
    {
        match self {
            Refusal::Memory => memory_title(),
            Refusal::List(error) => error.kind.title(),
            Refusal::Slit(fault) => fault.title(),
            Refusal::Machine(fault) => fault.title(),
            Refusal::Check(fault) => fault.title(),
            Refusal::BadText { .. } => "E77 BadText",
            Refusal::ReadFault(_) => "E113 ReadFault",
        }
    }

    fn arguments(self) -> Arguments
        ensures { text_of result ≡ arguments_of self }
    {
        match self {
            Refusal::List(error) => Arguments::One(error.at as u64),
            Refusal::Slit(fault) => slit_arguments(fault),
            Refusal::Machine(fault) => machine_arguments(fault),
            Refusal::Check(fault) => check_arguments(fault),
            Refusal::BadText { line } => Arguments::One(line),
            Refusal::Memory | Refusal::ReadFault(_) => Arguments::None,
        }
    }

    /// Writes the refusal's line.
    ///
    /// # Errors
    /// That of the first write that fails or takes no byte; a prefix of the line then went out.
    pub fn write<W: Write>(self, w: &mut W) -> io::Result<()>
        ensures { Writes (W.contents w.old) (W.contents w.new) result (refusal_line self) }
    {
        put_all(&[b"refused ".as_slice(), self.title().as_bytes()], w)?;
        self.arguments().write(w)?;
        put(b"\n", w)
    }
}

impl Arguments {
    /// Writes each argument behind a space.
    fn write<W: Write>(self, w: &mut W) -> io::Result<()>
        ensures { Writes (W.contents w.old) (W.contents w.new) result (text_of self) }
    {
        match self {
            Arguments::None => Ok(()),
            Arguments::One(argument) => put_argument(argument, w),
            Arguments::Two(first, second) => {
                put_argument(first, w)?;
                put_argument(second, w)
            }
            Arguments::Word(word) => put_word(word, w),
        }
    }
}

fn slit_arguments(fault: SlitFault) -> Arguments
    ensures { text_of result ≡ arguments_text (slit_arguments_of fault) }
{
    match fault {
        SlitFault::ReservedValue(row, column) => Arguments::Two(row as u64, column as u64),
        SlitFault::BadDiagonal(row) => Arguments::One(row as u64),
        SlitFault::TooShort
        | SlitFault::BadSignature
        | SlitFault::BadLength
        | SlitFault::BadCount
        | SlitFault::BadSum => Arguments::None,
    }
}

fn machine_arguments(fault: MachineFault) -> Arguments
    ensures { text_of result ≡ machine_arguments_of fault }
{
    match fault {
        MachineFault::BadField(field) => Arguments::Word(field.name()),
        MachineFault::CpuTwice(cpu) => Arguments::One(u64::from(cpu)),
        MachineFault::BadDistance(row, column) => Arguments::Two(row as u64, column as u64),
        MachineFault::BadCore(index) => Arguments::One(index as u64),
        MachineFault::NoCore(cpu) => Arguments::One(u64::from(cpu)),
        MachineFault::NotJson
        | MachineFault::NodeCount
        | MachineFault::BothDistances
        | MachineFault::NoDistances
        | MachineFault::WrongSize
        | MachineFault::BadReserved
        | MachineFault::BadOffline => Arguments::None,
    }
}

fn check_arguments(fault: CheckFault) -> Arguments
    ensures { text_of result ≡ arguments_text (check_arguments_of fault) }
{
    match fault {
        CheckFault::WrongCount { row } => Arguments::One(row as u64),
        CheckFault::NotAllowed { row, cpu } | CheckFault::ValueTooHigh { row, cpu } => {
            Arguments::Two(row as u64, u64::from(cpu))
        }
        CheckFault::HeldTwice { cpu } => Arguments::One(u64::from(cpu)),
        CheckFault::BadProblem | CheckFault::Gap | CheckFault::NoShortage => Arguments::None,
    }
}

impl From<OrMemory<ReadFault>> for Refusal {
    ghost from_gives = { λ error refusal. refusal ≡ read_refusal error };

    fn from(error: OrMemory<ReadFault>) -> Refusal {
        match error {
            OrMemory::Memory => Refusal::Memory,
            OrMemory::Fault(fault) => Refusal::ReadFault(fault),
        }
    }
}

impl From<OrMemory<SlitFault>> for Refusal {
    ghost from_gives = { λ error refusal. refusal ≡ slit_refusal error };

    fn from(error: OrMemory<SlitFault>) -> Refusal {
        match error {
            OrMemory::Memory => Refusal::Memory,
            OrMemory::Fault(fault) => Refusal::Slit(fault),
        }
    }
}

impl From<OrMemory<MachineFault>> for Refusal {
    ghost from_gives = { λ error refusal. refusal ≡ machine_refusal error };

    fn from(error: OrMemory<MachineFault>) -> Refusal {
        match error {
            OrMemory::Memory => Refusal::Memory,
            OrMemory::Fault(fault) => Refusal::Machine(fault),
        }
    }
}

impl From<ListError> for Refusal {
    ghost from_gives = { λ error refusal. refusal ≡ List error };

    fn from(error: ListError) -> Refusal {
        Refusal::List(error)
    }
}

impl From<OrMemory<VerdictFault>> for Refusal {
    ghost from_gives = { λ error refusal. refusal ≡ verdict_refusal error };

    fn from(error: OrMemory<VerdictFault>) -> Refusal {
        match error {
            OrMemory::Memory => Refusal::Memory,
            OrMemory::Fault(VerdictFault::BadText(bad)) => Refusal::BadText { line: bad.line },
            OrMemory::Fault(VerdictFault::Check(fault)) => Refusal::Check(fault),
        }
    }
}
