//! Strangers by their names.
ghost use Rattle.std.specs.Prelude.{◌≡◌, bytes_eq, string_bytes};
ghost use Rattle.std.specs.List.{list_any};
ghost use Rattle.cgroup_tree.specs.Asked.{named};
ghost use Rattle.strangers.specs.Guarded.{held, without};

use cgroup_tree::Stranger;
use cpu_set::IdSet;

/// The CPUs that they hold.
pub fn held(strangers: &[Stranger]) -> IdSet
    ensures { result ≡ held (named strangers.now) }
{
    strangers.iter().fold(IdSet::empty(), |cpus, stranger| cpus.union(&stranger.cpus))
}

/// Whether one of them has this name.
pub fn knows(strangers: &[Stranger], name: &str) -> bool
    ensures { result ≡ list_any (λ s. bytes_eq (string_bytes s.name) name.now) strangers.now }
{
    strangers
        .iter()
        .any(|stranger| stranger.name.as_str() == name)
}

/// Lets go of the one of this name.
pub fn let_go(strangers: &mut Vec<Stranger>, name: &str)
    ensures { named strangers.new.items ≡ without (named strangers.old.items) name.now }
{
    strangers.retain(|stranger| stranger.name.as_str() != name);
}
