//! What is read of an input, and printed.
ghost use Rattle.std.specs.Prelude.{ℕ, List, Result};
ghost use Rattle.answers.specs.Answer.{AnswersInput};
ghost use Rattle.answers.specs.Tells.{Answers};
ghost use Rattle.program_io.specs.Readings.{Reads};
ghost use Rattle.program_io.specs.declared.refusal.Refusal.{Refusal};

use crate::console::{Console, REFUSED, print_then_note};
use crate::note::Note;
use crate::printed::Printed;
use program_io::{Input, ReadFault, Refusal, Source};
use std::alloc::Global;
use std::io::Write;

/// What is read from an input's bytes, and printed.
pub trait Answer: Printed {
    /// What bytes may be answered by.
    ghost answers: { List ℕ → Result Self Refusal → Type 0 };

    /// What the bytes say, or why they are refused.
    fn from_bytes(alloc: Global, bytes: &[u8]) -> Result<Self, Refusal>
        ensures { answers bytes.now result };
}

/// What an open input says, or why it is refused.
pub fn answer_in<T: Answer, I: Input>(alloc: Global, input: I) -> Result<T, Refusal>
    ensures { AnswersInput T.answers (I.gives input) result }
{
    let bytes = input.read_whole(alloc)?;
    T::from_bytes(alloc, bytes.as_slice())
}

/// What a source says, or why it is refused.
pub fn answer_of<T: Answer, S: Source>(alloc: Global, source: S) -> Result<T, Refusal>
    ensures { AnswersInput T.answers (Reads S.opens S.fails S.Input.gives source) result }
{
    match source.open() {
        Ok(input) => answer_in(alloc, input),
        Err(error) => Err(Refusal::ReadFault(ReadFault::from(error))),
    }
}

/// Prints the answer to the input that is called so, and beside a refused reading why it was; the status is 0, or 1 for
/// a refusal and for an answer that can't be written.
pub fn print_answer<T: Printed, W: Write, E: Write>(
    answer: &Result<T, Refusal>,
    name: &str,
    console: &mut Console<W, E>,
) -> u8
    ensures { Answers W.contents E.contents console.old console.new result T.text name.now answer.now }
{
    match answer {
        Ok(found) => print_then_note(found, 0, &None, console),
        Err(refusal) => {
            print_then_note(refusal, REFUSED, &Note::beside(*refusal, name), console)
        }
    }
}
