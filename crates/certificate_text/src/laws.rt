//! How the texts of certificates and problems are read and written: laws over the definitions alone. Nothing here runs.
ghost use Rattle.std.specs.Prelude.{◌≡◌};
ghost use Rattle.certificate_text.specs.CertificateText.{OneCertificate};
ghost use Rattle.certificate_text.specs.FirstBadLine.{OneBadLine};
ghost use Rattle.certificate_text.specs.ProblemText.{OneProblem, ReadProblemsCanBeWritten};
ghost use Rattle.certificate_text.specs.Written.{ReadCanBeWritten, WrittenReadsAgain};

use crate::ID_LIMIT;

/// No text stands for the rows of two problems. Whatever [`read_problem`](crate::read_problem) reads can be written as
/// the rows of a certificate.
pub fn problem_texts()
    ensures problem { OneProblem }
    ensures written { ReadProblemsCanBeWritten }
{
    cpu_list::laws::lists_stay_below();
}

/// No text stands for two certificates, of plans or of shortages, of either version. None has two first bad lines.
pub fn one_reading()
    ensures certificate { OneCertificate }
    ensures line { OneBadLine }
{}

/// What [`write_text`](crate::write_text) writes stands for the certificate, so reading gives it back.
pub fn written_texts_are_read()
    ensures { WrittenReadsAgain }
{
    cpu_list::laws::canonical_texts();
    cpu_list::laws::plain_texts();
}

/// Whatever [`read_text`](crate::read_text) reads meets the condition of [`write_text`](crate::write_text).
pub fn read_certificates_can_be_written()
    ensures { ReadCanBeWritten }
{}

/// An id has at most 64 bytes.
pub fn the_limits()
    ensures id { ID_LIMIT ≡ 64 }
{}
