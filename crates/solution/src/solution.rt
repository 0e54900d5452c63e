ghost use Rattle.byte_output.specs.Output.{Writes};
ghost use Rattle.certificate_text.specs.Written.{CanWrite, text_of};

use certificate::Certificate;
use certificate_text::write_text;
use std::io;
use std::io::Write;
use std::marker::Model;

/// The certificate of what a problem comes to, which can be written. Contracts see its text.
#[derive(Drop)]
pub struct Solution {
    certificate: Certificate,
}

impl Model for Solution {
    ghost use Rattle.std.specs.Prelude.{ℕ, List};
    ghost use Rattle.certificate_text.specs.Written.{CanWrite, text_of};

    ghost Value = { List ℕ };

    ghost view = { λ s. text_of s.certificate };

    ghost invariant = { λ s. CanWrite s.certificate };
}

impl Solution {
    ghost use Rattle.std.specs.Prelude.{◌≡◌};

    pub(crate) fn new(certificate: Certificate) -> Solution
        requires { CanWrite certificate }
        ensures { result ≡ text_of certificate }
    {
        Solution { certificate }
    }

    /// Writes the certificate's text. It allocates nothing.
    ///
    /// # Errors
    /// As [`write_text`]: a prefix of the text then went out.
    pub fn write<W: Write>(&self, w: &mut W) -> io::Result<()>
        // On an error a prefix of the text went out.
        ensures { Writes (W.contents w.old) (W.contents w.new) result self.now }
    {
        write_text(&self.certificate, w)
    }
}
