use faults::Fault;

/// A line was not taken: it says nothing, or can't follow those before it.
#[derive(Clone, Copy, Debug)]
pub struct BadLine;

impl Fault for BadLine {}
