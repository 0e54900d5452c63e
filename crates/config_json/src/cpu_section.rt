ghost use Rattle.std.specs.Prelude.{◌≡◌, IfOk, option_map, string_bytes};
ghost use Rattle.std.specs.Result.{result_err};
ghost use Rattle.serde_json.specs.View.{view};
ghost use Rattle.config_json.specs.SectionOf.{section_of};
ghost use Rattle.config_json.specs.ValueFault.{cpu_fault};

use crate::fault::ConfigFault;
use crate::field::Field;
use crate::lookup::{optional_object, optional_signed, optional_text, optional_unsigned};
use json_text::{inner, member};
use serde_json::Value;
use std::alloc::{AllocError, Global};
use std::marker::Model;

/// `linux.resources.cpu` of a config (config-linux.md, "CPU"). A member that is absent or null is `None`.
#[derive(Drop)]
pub struct CpuSection {
    /// Microseconds that all tasks of the container may run during one period.
    pub quota: Option<i64>,
    /// Length of a period in microseconds.
    pub period: Option<u64>,
    /// List of the CPUs that the container may run on, as text.
    pub cpus: Option<String>,
    /// List of the memory nodes that the container may use, as text.
    pub mems: Option<String>,
}

impl Model for CpuSection {
    ghost use Rattle.std.specs.Prelude.{option_map, string_bytes};
    ghost use Rattle.config_json.specs.SectionOf.{Section};

    ghost Value = { Section };

    ghost view = { λ s. record {
      quota = s.quota;
      period = s.period;
      cpus = option_map string_bytes s.cpus;
      mems = option_map string_bytes s.mems;
    } };
}

/// The same members as they were found, with the texts still in the JSON value.
#[derive(Drop)]
pub(crate) struct Found<'v> {
    quota: Option<i64>,
    period: Option<u64>,
    cpus: Option<&'v str>,
    mems: Option<&'v str>,
}

impl Found<'_> {
    ghost use Rattle.config_json.specs.FoundView.{found_view};

    /// Looks the members up, and checks what leads to them and then each of them.
    #[tactic(auto, unfolding(crate::specs::ValueFault::cpu_fault))]
    pub(crate) fn of(config: &Value) -> Result<Found<'_>, ConfigFault>
        ensures fault { cpu_fault (view config.now) ≡ result_err result }
        ensures value { IfOk result (λ found. found_view found ≡ section_of (view config.now)) }
    {
        let linux = member(config, "linux");
        optional_object(linux, Field::Linux)?;
        let resources = inner(linux, "resources");
        optional_object(resources, Field::Resources)?;
        let cpu = inner(resources, "cpu");
        optional_object(cpu, Field::Cpu)?;
        Ok(Found {
            quota: optional_signed(inner(cpu, "quota"), Field::Quota)?,
            period: optional_unsigned(inner(cpu, "period"), Field::Period)?,
            cpus: optional_text(inner(cpu, "cpus"), Field::Cpus)?,
            mems: optional_text(inner(cpu, "mems"), Field::Mems)?,
        })
    }

    /// The section, with the texts copied.
    pub(crate) fn to_section(&self, alloc: Global) -> Result<CpuSection, AllocError>
        ensures { IfOk result (λ section. section ≡ found_view self.now) }
    {
        Ok(CpuSection {
            quota: self.quota,
            period: self.period,
            cpus: copied(alloc, self.cpus)?,
            mems: copied(alloc, self.mems)?,
        })
    }
}

/// A copy of a text that may be absent.
fn copied(alloc: Global, text: Option<&str>) -> Result<Option<String>, AllocError>
    ensures { IfOk result (λ copy. option_map string_bytes copy ≡ option_map (λ t. t.now) text.entry) }
{
    match text {
        Some(text) => Ok(Some(String::from_str(alloc, text)?)),
        None => Ok(None),
    }
}
