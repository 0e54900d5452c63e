//! `state` (OCI Runtime Specification 1.0.2, runtime.md, "Query State").
ghost use Rattle.std.specs.Prelude.{◌≡◌, IfOk, string_bytes};
ghost use Rattle.serde_json.specs.View.{view};
ghost use Rattle.serde_json.specs.Written.{compact_text};
ghost use Rattle.node.specs.Shown.{live_data, stopped_data, state_of, Shows};
ghost use Rattle.node.specs.Viewed.{viewed};

use crate::container::{Container, Status};
use crate::containers::find;
use crate::sets::status;
use crate::{Node, NodeFault};
use faults::OrMemory;
use kernel_model::Kernel;
use serde_json::{Value, json};
use std::alloc::{AllocError, Global};

/// The state of a live container.
fn live_state(
    alloc: Global,
    id: &str,
    bundle: &str,
    pid: u64,
    status: &str,
) -> Result<Value, AllocError>
    ensures { IfOk result (λ v. view v ≡ live_data id.now bundle.now pid status.now) }
{
    json!(in alloc; {"bundle": bundle, "id": id, "ociVersion": "1.0.2", "pid": pid, "status": status})
}

/// The state of a stopped container, which shows no pid.
fn stopped_state(alloc: Global, id: &str, bundle: &str, status: &str) -> Result<Value, AllocError>
    ensures { IfOk result (λ v. view v ≡ stopped_data id.now bundle.now status.now) }
{
    json!(in alloc; {"bundle": bundle, "id": id, "ociVersion": "1.0.2", "status": status})
}

/// The text of a live container's state.
fn live_text(
    alloc: Global,
    id: &str,
    bundle: &str,
    pid: u64,
    status: &str,
) -> Result<String, AllocError>
    ensures { IfOk result (λ text. string_bytes text ≡ compact_text (live_data id.now bundle.now pid status.now)) }
{
    let state = live_state(alloc, id, bundle, pid, status)?;
    state.to_string(alloc)
}

/// The text of a stopped container's state.
fn stopped_text(alloc: Global, id: &str, bundle: &str, status: &str) -> Result<String, AllocError>
    ensures { IfOk result (λ text. string_bytes text ≡ compact_text (stopped_data id.now bundle.now status.now)) }
{
    let state = stopped_state(alloc, id, bundle, status)?;
    state.to_string(alloc)
}

/// The text of a container's state.
fn state_text<K: Kernel>(
    alloc: Global,
    kernel: &K,
    id: &str,
    container: &Container,
) -> Result<String, AllocError>
    ensures { IfOk result (λ text. string_bytes text
        ≡ compact_text (state_of (K.state kernel.now) id.now (viewed container.now))) }
{
    let bundle = container.bundle.as_str();
    let status = status(kernel, container);
    match status {
        Status::Stopped => stopped_text(alloc, id, bundle, status.word()),
        _ => live_text(alloc, id, bundle, u64::from(container.pid), status.word()),
    }
}

impl<K: Kernel + Drop> Node<K> {
    /// The state of a container as compact JSON: `bundle`, `id`, `ociVersion`, `pid` unless it is stopped, and
    /// `status`.
    ///
    /// # Errors
    /// `NoContainer`, or an allocation failure.
    pub fn state(&self, id: &str) -> Result<String, OrMemory<NodeFault>>
        // The members are written in their order.
        ensures { Shows self.now id.now result }
    {
        let Some(container) = find(&self.containers, id) else {
            return Err(OrMemory::Fault(NodeFault::NoContainer));
        };
        match state_text(self.alloc, &self.kernel, id, container) {
            Ok(text) => Ok(text),
            Err(_) => Err(OrMemory::Memory),
        }
    }
}
