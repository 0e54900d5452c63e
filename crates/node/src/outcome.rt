use cpu_set::IdSet;

/// What a node works out for its containers.
#[derive(Clone, Copy, Debug, PartialEq, Eq)]
pub enum Outcome {
    /// A plan of this total distance of its CPUs; how many cores it moves is told by its certificate.
    Plan(u64),
    /// A shortage.
    Short {
        /// How many CPUs its members ask for together.
        asked: u64,
        /// The CPUs of the cores that one of them may get.
        allowed: IdSet,
    },
}
