//! Why a write that failed was not asked for.
/// Why a write that failed was not asked for.
#[derive(Clone, Copy)]
pub enum Unasked {
    /// Memory is short for the path of a new folder of this name.
    NoRoom,
    /// No folder may have this name.
    NoName,
    /// It is the root, whose processes are left.
    Root,
}
