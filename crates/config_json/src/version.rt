//! The member `ociVersion`: a version whose major number is 1.
ghost use Rattle.std.specs.Prelude.{◌≡◌, false, IfOk, IsErr, IsErrOf};
ghost use Rattle.serde_json.specs.View.{view};
ghost use Rattle.semver.specs.Parse.{version_parts};
ghost use Rattle.faults.specs.Answers.{Reports, ChecksFirst};
ghost use Rattle.config_json.specs.VersionFault.{is_major_one, is_plain};
ghost use Rattle.config_json.specs.ValueFault.{oci_version_fault, version_kind_fault, has_plain_version};

use crate::fault::ConfigFault;
use crate::field::Field;
use crate::lookup::{required, text};
use faults::OrMemory;
use json_text::member;
use semver::Version;
use serde_json::Value;
use std::alloc::{AllocError, Global};

/// Whether a text is a SemVer 2.0.0 version with major number 1. Only one with pre-release or build
/// metadata allocates.
fn is_major_one(alloc: Global, text: &str) -> Result<bool, AllocError>
    ensures ok { IfOk result (λ answer. answer ≡ is_major_one (version_parts text.now)) }
    ensures plain { IsErr result → is_plain (version_parts text.now) ≡ false }
{
    match Version::parse(alloc, text) {
        Ok(version) => Ok(version.major == 1),
        Err(e) if e == semver::Error::from(AllocError) => Err(AllocError),
        Err(_) => Ok(false),
    }
}

/// Checks `ociVersion`.
#[tactic(auto, unfolding(crate::specs::ValueFault::oci_version_fault))]
pub fn check_version(alloc: Global, config: &Value) -> Result<(), OrMemory<ConfigFault>>
    ensures fault { Reports result (oci_version_fault (view config.now)) }
    ensures memory { ChecksFirst result (version_kind_fault (view config.now)) }
    ensures plain { IsErrOf result OrMemory.Memory → has_plain_version (view config.now) ≡ false }
{
    let version = required(member(config, "ociVersion"), Field::OciVersion)?;
    if !is_major_one(alloc, text(version, Field::OciVersion)?)? {
        return Err(OrMemory::Fault(ConfigFault::BadVersion));
    }
    Ok(())
}
