//! What is printed.
ghost use Rattle.std.specs.Prelude.{ℕ, List, string_bytes};
ghost use Rattle.byte_output.specs.Output.{Writes};
ghost use Rattle.program_io.specs.RefusalLine.{refusal_line};

use byte_output::put;
use program_io::Refusal;
use std::io;
use std::io::Write;

/// What can be printed.
pub trait Printed {
    /// The text that is printed.
    ghost text: { Self → List ℕ };

    fn print<W: Write>(&self, w: &mut W) -> io::Result<()>
        ensures { Writes (W.contents w.old) (W.contents w.new) result (text self.now) };
}

impl Printed for String {
    ghost text = { string_bytes };

    fn print<W: Write>(&self, w: &mut W) -> io::Result<()> {
        put(self.as_bytes(), w)
    }
}

impl Printed for &str {
    ghost text = { λ text. text.now };

    fn print<W: Write>(&self, w: &mut W) -> io::Result<()> {
        put(self.as_bytes(), w)
    }
}

impl Printed for Refusal {
    ghost text = { refusal_line };

    fn print<W: Write>(&self, w: &mut W) -> io::Result<()> {
        self.write(w)
    }
}
