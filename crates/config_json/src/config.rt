ghost use Rattle.std.specs.Prelude.{◌≡◌, Some, is_some};
ghost use Rattle.std.specs.Result.{result_err};
ghost use Rattle.std.specs.List.{list_all};
ghost use Rattle.serde_json.specs.Find.{as_str};
ghost use Rattle.serde_json.specs.View.{view, items_view};
ghost use Rattle.faults.specs.Answers.{Gives, ChecksFirst};
ghost use Rattle.config_json.specs.ConfigOf.{answer_to, config_of, bytes_fault};
ghost use Rattle.config_json.specs.IsRunnable.{are_words, is_runnable};
ghost use Rattle.config_json.specs.ValueFault.{early_fault, root_fault};

use crate::cpu_section::{CpuSection, Found};
use crate::fault::ConfigFault;
use crate::field::Field;
use crate::lookup::{check_object, required, text};
use crate::version::check_version;
use faults::OrMemory;
use json_text::{inner, member, parse};
use serde_json::Value;
use std::alloc::Global;

/// The most bytes that a config may have.
pub const MAX_BYTES: usize = 1_048_576;

/// What pinning reads of a config.
#[derive(Drop)]
pub struct Config {
    /// Whether `process.args` is an array of one text or more, so that the container can be started.
    pub runnable: bool,
    /// `linux.resources.cpu`.
    pub cpu: CpuSection,
}

impl Config {
    /// Reads a config of at most [`MAX_BYTES`] bytes.
    ///
    /// The members that are looked at are `ociVersion`; `root`, `root.path`; `linux`, `linux.resources`,
    /// `linux.resources.cpu`, and its `quota`, `period`, `cpus` and `mems`. A member that is null counts as
    /// absent, of one that is given twice the last counts, and all others are ignored. A quota is a whole
    /// number of 64 bits with a sign, a period one without, written with neither fraction nor exponent.
    ///
    /// # Errors
    /// An allocation failure, or the first fault in this order: [`ConfigFault::TooLong`], `NotJson`, `NotObject`;
    /// then, for each of those members in turn, `Missing` where it is required and absent, `BadField` where it
    /// is of another kind, and for the version `BadVersion`.
    ///
    /// Before the first allocation it is known whether there are too many bytes or none, and whether they
    /// are UTF-8. Once the JSON value is there, it allocates only for a version with pre-release or build
    /// metadata and for the texts of a value without fault.
    #[tactic(auto, unfolding(crate::specs::ConfigOf::config_of))]
    pub fn read(alloc: Global, bytes: &[u8]) -> Result<Config, OrMemory<ConfigFault>>
        // The looked-at members of the JSON value. Else the first fault in the written order.
        ensures value { Gives result (config_of bytes.now) }
        // If there are too many bytes or none, or they are not UTF-8, it makes no allocation.
        ensures memory { ChecksFirst result (bytes_fault bytes.now) }
    {
        if bytes.len() > MAX_BYTES {
            return Err(OrMemory::Fault(ConfigFault::TooLong));
        }
        Config::of(alloc, &parse(alloc, bytes, ConfigFault::NotJson)?)
    }

    /// What a JSON value says.
    #[tactic(auto, unfolding(crate::specs::ValueFault::oci_version_fault))]
    fn of(alloc: Global, value: &Value) -> Result<Config, OrMemory<ConfigFault>>
        ensures value { Gives result (answer_to (Some (view value.now))) }
        ensures memory { ChecksFirst result (early_fault (view value.now)) }
    {
        if !value.is_object() {
            return Err(OrMemory::Fault(ConfigFault::NotObject));
        }
        check_version(alloc, value)?;
        check_root(value)?;
        let found = Found::of(value)?;
        Ok(Config {
            runnable: runnable(value),
            cpu: found.to_section(alloc)?,
        })
    }
}

/// Checks `root` and `root.path`.
#[tactic(auto, unfolding(crate::specs::ValueFault::root_fault))]
fn check_root(value: &Value) -> Result<(), ConfigFault>
    ensures { root_fault (view value.now) ≡ result_err result }
{
    let root = required(member(value, "root"), Field::Root)?;
    check_object(root, Field::Root)?;
    let path = required(member(root, "path"), Field::RootPath)?;
    text(path, Field::RootPath)?;
    Ok(())
}

/// Whether each value is a text.
fn are_texts(values: &[Value]) -> bool
    ensures { result ≡ list_all (λ v. is_some (as_str (view v))) values.now }
{
    values.iter().all(|value| value.is_string())
}

/// Whether there is a value, and each is a text.
#[tactic(auto, using(crate::proofs::Words::word_tests))]
fn are_words(values: &[Value]) -> bool
    ensures { result ≡ are_words (items_view values.now) }
{
    !values.is_empty() && are_texts(values)
}

/// Whether `process.args` is an array of one text or more.
fn runnable(value: &Value) -> bool
    ensures { result ≡ is_runnable (view value.now) }
{
    let Some(args) = inner(member(value, "process"), "args") else {
        return false;
    };
    match args.as_array() {
        Some(words) => are_words(words),
        None => false,
    }
}
