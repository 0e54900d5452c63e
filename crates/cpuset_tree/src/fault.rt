use faults::Fault;

/// Why a tree refuses a call.
#[derive(Clone, Copy, Debug, PartialEq, Eq)]
pub enum TreeFault {
    /// No group of the tree has this key and serial, as after its removal.
    NoGroup,
    /// The parent has a child of that name.
    Exists,
    /// A group with children can't be removed.
    HasChildren,
    /// The root can't be removed or written.
    IsRoot,
    /// The next serial would be [`crate::SERIAL_LIMIT`].
    NoSerials,
}

impl Fault for TreeFault {}
