//! Why a script has no machine to run over.
use crate::defect::Defect;
use machine::MachineFault;
use program_io::Refusal;

/// Why a script is not begun: what is wrong with the machine file, or with the distance table beside it.
#[derive(Clone, Copy)]
pub enum Unready {
    Machine(Refusal),
    /// E25: the machine file is no JSON object of its size.
    NotJson(Defect),
    Slit(Refusal),
}

impl Unready {
    ghost use Rattle.std.specs.Prelude.{◌≡◌};
    ghost use Rattle.cli.specs.Ready.{refusal_of};

    /// What is told of it.
    pub fn refusal(self) -> Refusal
        ensures { result ≡ refusal_of self }
    {
        match self {
            Unready::Machine(refusal) | Unready::Slit(refusal) => refusal,
            Unready::NotJson(_) => Refusal::Machine(MachineFault::NotJson),
        }
    }
}
