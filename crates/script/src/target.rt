//! What answers a script's commands.
ghost use Rattle.std.specs.Prelude.{ℕ, List};
ghost use Rattle.script.specs.Commands.{Asked, asked};
ghost use Rattle.script.specs.Ends.{Replies};

use crate::command::Command;
use std::io;
use std::io::Write;

/// What a script is run over.
pub trait Target {
    /// What the target may answer a command, and what it is then.
    ghost answers: { Self → Asked → List ℕ → Self → Type 0 };

    /// Carries the command out and writes the answer. A refusal is an answer too.
    ///
    /// # Errors
    /// That of the first write that fails or takes no byte; the command was then carried out all the same.
    fn answer<W: Write>(&mut self, command: Command<'_>, w: &mut W) -> io::Result<()>
        ensures { Replies (answers self.old (asked command.entry)) (W.contents w.old) (W.contents w.new) result
            self.new };
}
