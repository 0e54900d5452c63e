use crate::course::Course;
use cpu_set::IdSet;

/// A hand-over that is open.
#[derive(Drop)]
pub struct Ongoing {
    /// The containers with what they are to have, in the order in which they get it.
    pub course: Course,
    /// What each of their groups requested when it began.
    pub requested_at_begin: Vec<IdSet>,
}
