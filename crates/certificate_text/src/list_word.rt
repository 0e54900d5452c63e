//! Lists of CPUs as words.
ghost use Rattle.std.specs.Prelude.{MatchOption};
ghost use Rattle.cpu_set.specs.Ids.{Ids};
ghost use Rattle.certificate_text.specs.ListWord.{IsListWord};

use cpu_set::{CPU_LIMIT, IdSet};

/// The CPUs that the word names as a list, one at least.
pub fn read_cpus(word: &[u8]) -> Option<IdSet>
    ensures { MatchOption result ((cpus : Ids) → IsListWord word.now cpus → ⊥)
        (λ cpus. IsListWord word.now cpus) }
{
    let Ok(cpus) = cpu_list::read(word, CPU_LIMIT) else {
        return None;
    };
    if cpus.is_empty() {
        return None;
    }
    Some(cpus)
}
