//! The containers by their ids, in the order in which they were created.
ghost use Rattle.std.specs.Prelude.{◌≡◌, ◌<◌, ◌++◌, true, [], ◌∷◌, Some, None, option_map, string_bytes, OnOk, IfOk};
ghost use Rattle.std.specs.Map.{lookup, set_value, remove_entry};
ghost use Rattle.std.specs.Str.{bytes_eq};
ghost use Rattle.indexmap.specs.IndexMap.{spare};
ghost use Rattle.node.specs.NodeState.{ContainerState};
ghost use Rattle.node.specs.Viewed.{viewed, all_seen};

use crate::container::Container;
use demand::Demand;
use indexmap::IndexMap;
use std::alloc::{AllocError, Global};

/// The container of this id.
pub fn find<'a>(containers: &'a IndexMap<String, Container>, id: &str) -> Option<&'a Container>
    ensures { option_map (λ c. viewed c.now) result ≡ lookup (bytes_eq id.now) (all_seen containers.now.entries) }
{
    containers.get(id)
}

/// The texts of a container to come, and room for it.
pub fn prepare(
    alloc: Global,
    containers: &mut IndexMap<String, Container>,
    id: &str,
    bundle: &str,
) -> Result<(String, String), AllocError>
    ensures same { containers.new.entries ≡ containers.old.entries }
    ensures room { OnOk result (0 < spare containers.new) }
    ensures id { IfOk result (λ texts. string_bytes texts.0 ≡ id.now) }
    ensures bundle { IfOk result (λ texts. string_bytes texts.1 ≡ bundle.now) }
{
    let id = String::from_str(alloc, id)?;
    let bundle = String::from_str(alloc, bundle)?;
    containers.reserve(1)?;
    Ok((id, bundle))
}

/// Adds a container after all others.
pub fn append(containers: &mut IndexMap<String, Container>, id: String, container: Container)
    requires room { 0 < spare containers.old }
    requires absent { lookup (bytes_eq (string_bytes id)) (all_seen containers.old.entries) ≡ None }
    ensures { all_seen containers.new.entries ≡ all_seen containers.old.entries ++ (string_bytes id, viewed container)
        ∷ [] }
{
    match containers.insert(id, container) {
        Ok(_) => {}
        Err(_) => unreachable!(),
    }
}

/// Notes that a container was started.
pub fn mark_started(containers: &mut IndexMap<String, Container>, id: &str)
    ensures { (c : ContainerState) → lookup (bytes_eq id.now) (all_seen containers.old.entries) ≡ Some c
        → all_seen containers.new.entries ≡ set_value (bytes_eq id.now) (all_seen containers.old.entries)
        (record c { started = true }) }
{
    if let Some(container) = containers.get_mut(id) {
        container.started = true;
    }
}

/// Gives a container another bundle and demand.
pub fn replace(
    containers: &mut IndexMap<String, Container>,
    id: &str,
    bundle: String,
    demand: Demand,
)
    ensures { (c : ContainerState) → lookup (bytes_eq id.now) (all_seen containers.old.entries) ≡ Some c
        → all_seen containers.new.entries ≡ set_value (bytes_eq id.now) (all_seen containers.old.entries)
        (record c { bundle = string_bytes bundle; demand = demand }) }
{
    if let Some(container) = containers.get_mut(id) {
        container.bundle = bundle;
        container.demand = demand;
    }
}

/// Takes a container out; the others keep their order.
pub fn take_out(containers: &mut IndexMap<String, Container>, id: &str)
    ensures { all_seen containers.new.entries ≡ remove_entry (bytes_eq id.now) (all_seen containers.old.entries) }
{
    containers.shift_remove(id);
}
