//! Reading members of a machine file as what they have to be.
ghost use Rattle.std.specs.Prelude.{◌≡◌, None, IfOk, map};
ghost use Rattle.std.specs.Result.{result_err};
ghost use Rattle.serde_json.specs.View.{view};
ghost use Rattle.json_text.specs.Members.{member_of, seen};
ghost use Rattle.machine.specs.FieldName.{name_of};
ghost use Rattle.machine.specs.Members.{items_in};
ghost use Rattle.machine.specs.Listed.{cpus_named};
ghost use Rattle.machine.specs.KindFaults.{array_fault, list_fault};

use crate::fault::MachineFault;
use crate::field::Field;
use cpu_set::{CPU_LIMIT, IdSet};
use json_text::member;
use serde_json::Value;

/// The member of this name.
pub(crate) fn find(value: &Value, field: Field) -> Option<&Value>
    ensures { seen result ≡ member_of (name_of field) (view value.now) }
{
    member(value, field.name())
}

/// The items of a member that has to be an array.
#[tactic(auto, using(crate::proofs::ItemLaws::item_lists))]
pub(crate) fn array(found: Option<&Value>, field: Field) -> Result<&[Value], MachineFault>
    ensures fault { array_fault field (seen found.entry) ≡ result_err result }
    ensures items { IfOk result (λ items. items_in (seen found.entry) ≡ map view items.now) }
{
    let Some(value) = found else {
        return Err(MachineFault::BadField(field));
    };
    match value.as_array() {
        Some(items) => Ok(items.as_slice()),
        None => Err(MachineFault::BadField(field)),
    }
}

/// The CPUs of a value that is a list.
pub(crate) fn cpus_of(value: &Value, field: Field) -> IdSet
    requires { list_fault field (view value.now) ≡ None }
    ensures { result ≡ cpus_named (view value.now) }
{
    list(value, field).unwrap()
}

/// The CPUs of a value that has to be a list as text.
pub(crate) fn list(value: &Value, field: Field) -> Result<IdSet, MachineFault>
    ensures fault { list_fault field (view value.now) ≡ result_err result }
    ensures cpus { IfOk result (λ cpus. cpus ≡ cpus_named (view value.now)) }
{
    let Some(text) = value.as_str() else {
        return Err(MachineFault::BadField(field));
    };
    match cpu_list::read(text.as_bytes(), CPU_LIMIT) {
        Ok(cpus) => Ok(cpus),
        Err(_) => Err(MachineFault::BadField(field)),
    }
}
