//! Reading the members of a JSON value as the kind that they must have.
ghost use Rattle.std.specs.Prelude.{◌≡◌, IfOk, option_map, option_and_then};
ghost use Rattle.std.specs.Result.{result_err};
ghost use Rattle.serde_json.specs.Find.{as_object, as_str};
ghost use Rattle.serde_json.specs.View.{view};
ghost use Rattle.json_text.specs.Members.{seen};
ghost use Rattle.json_text.specs.Numbers.{unsigned_of};
ghost use Rattle.config_json.specs.Checks.{signed_of, missing_fault, other_kind, kind_fault};

use crate::fault::ConfigFault;
use crate::field::Field;
use serde_json::Value;

/// A member that has to be there.
pub fn required(found: Option<&Value>, field: Field) -> Result<&Value, ConfigFault>
    ensures fault { missing_fault field (seen found.entry) ≡ result_err result }
    ensures value { IfOk result (λ v. seen found.entry ≡ Some (view v.now)) }
{
    match found {
        Some(value) => Ok(value),
        None => Err(ConfigFault::Missing(field)),
    }
}

/// Checks that a value is an object.
pub fn check_object(value: &Value, field: Field) -> Result<(), ConfigFault>
    ensures { other_kind field as_object (view value.now) ≡ result_err result }
{
    if value.is_object() {
        Ok(())
    } else {
        Err(ConfigFault::BadField(field))
    }
}

/// A value as text.
pub fn text(value: &Value, field: Field) -> Result<&str, ConfigFault>
    ensures fault { other_kind field as_str (view value.now) ≡ result_err result }
    ensures value { IfOk result (λ t. as_str (view value.now) ≡ Some t.now) }
{
    match value.as_str() {
        Some(text) => Ok(text),
        None => Err(ConfigFault::BadField(field)),
    }
}

/// A member that may be absent, as an object.
pub fn optional_object(found: Option<&Value>, field: Field) -> Result<(), ConfigFault>
    ensures { kind_fault field as_object (seen found.entry) ≡ result_err result }
{
    match found {
        Some(value) => check_object(value, field),
        None => Ok(()),
    }
}

/// A member that may be absent, as text.
pub fn optional_text(found: Option<&Value>, field: Field) -> Result<Option<&str>, ConfigFault>
    ensures fault { kind_fault field as_str (seen found.entry) ≡ result_err result }
    ensures value { IfOk result (λ t. option_map (λ s. s.now) t
        ≡ option_and_then as_str (seen found.entry)) }
{
    match found {
        Some(value) => Ok(Some(text(value, field)?)),
        None => Ok(None),
    }
}

/// A member that may be absent, as a whole number of 64 bits with a sign.
pub fn optional_signed(found: Option<&Value>, field: Field) -> Result<Option<i64>, ConfigFault>
    ensures fault { kind_fault field signed_of (seen found.entry) ≡ result_err result }
    ensures value { IfOk result (λ n. n ≡ option_and_then signed_of (seen found.entry)) }
{
    let Some(value) = found else {
        return Ok(None);
    };
    match value.as_i64() {
        Some(number) => Ok(Some(number)),
        None => Err(ConfigFault::BadField(field)),
    }
}

/// A member that may be absent, as a whole number of 64 bits without a sign.
pub fn optional_unsigned(found: Option<&Value>, field: Field) -> Result<Option<u64>, ConfigFault>
    ensures fault { kind_fault field unsigned_of (seen found.entry) ≡ result_err result }
    ensures value { IfOk result (λ n. n ≡ option_and_then unsigned_of (seen found.entry)) }
{
    let Some(value) = found else {
        return Ok(None);
    };
    match value.as_u64() {
        Some(number) => Ok(Some(number)),
        None => Err(ConfigFault::BadField(field)),
    }
}
