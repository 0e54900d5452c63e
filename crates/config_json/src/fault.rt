ghost use Rattle.std.specs.Prelude.{◌≡◌};
ghost use Rattle.config_json.specs.FaultTitle.{config_title};

use crate::field::Field;
use faults::Fault;

/// Why a text is no config that can be read.
#[derive(Clone, Copy, Debug, PartialEq, Eq)]
pub enum ConfigFault {
    /// E55: the text has more than [`MAX_BYTES`](crate::MAX_BYTES) bytes.
    TooLong,
    /// E56: the bytes are not UTF-8, or not JSON, or nest deeper than `serde_json` reads.
    NotJson,
    /// E57: the JSON value is not an object.
    NotObject,
    /// E58: a required member is absent.
    Missing(Field),
    /// E59: `ociVersion` is no SemVer 2.0.0 text, or its major number is not 1.
    BadVersion,
    /// E60: a member is of another kind than the specification gives it.
    BadField(Field),
}

impl ConfigFault {
    /// The number and the name that a refusal's line has.
    pub fn title(self) -> &'static str
        ensures { result.now ≡ config_title self }
    {
        match self {
            ConfigFault::TooLong => "E55 TooLong",
            ConfigFault::NotJson => "E56 NotJson",
            ConfigFault::NotObject => "E57 NotObject",
            ConfigFault::Missing(_) => "E58 Missing",
            ConfigFault::BadVersion => "E59 BadVersion",
            ConfigFault::BadField(_) => "E60 BadField",
        }
    }
}

impl Fault for ConfigFault {}
