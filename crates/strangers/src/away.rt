//! CPUs that are offline while one line is answered.
ghost use Rattle.std.specs.Prelude.{◌≡◌, ℕ, None, is_none, true, if◌then◌else◌};
ghost use Rattle.std.specs.FinSet as set;
ghost use Rattle.kernel_model.specs.Refusals.{offline_refusal, online_refusal};
ghost use Rattle.strangers.specs.Guarded.{away, back, can_leave, with_online_cpus};

use cpu_set::{CPU_LIMIT, IdSet};
use kernel_model::Kernel;
use runtime::{Bundles, Runner};

/// Takes those of these CPUs offline that can go, and returns them.
pub fn take_away<K: Kernel + Drop, B: Bundles + Drop>(
    runner: &mut Runner<K, B>,
    cpus: &IdSet,
) -> IdSet
    ensures which { result ≡ can_leave cpus.now runner.old.node.kernel }
    ensures away { runner.new ≡ away runner.old result }
{
    runner.node().holds();
    let online = runner.node().kernel().online();
    let leaving = cpus.meet(&online);
    if leaving.is_empty() {
        return leaving;
    }
    leaving.stays_below_the_limit();
    for cpu in 0..CPU_LIMIT {
        if leaving.contains(cpu) {
            take_one(runner, cpu);
        }
    }
    online.minus(&runner.node().kernel().online())
}

/// Takes a CPU offline, unless it can't go.
fn take_one<K: Kernel + Drop, B: Bundles + Drop>(runner: &mut Runner<K, B>, cpu: u16)
    ensures { runner.new ≡ (if is_none (offline_refusal runner.old.node.kernel cpu)
        then with_online_cpus runner.old (set.remove runner.old.node.kernel.tree.online cpu) else runner.old) }
{
    let _ = runner.offline(u32::from(cpu));
}

/// Brings these CPUs online.
pub fn bring_back<K: Kernel + Drop, B: Bundles + Drop>(runner: &mut Runner<K, B>, cpus: &IdSet)
    requires { (cpu : ℕ) → set.contains cpus.now cpu ≡ true → online_refusal runner.old.node.kernel cpu ≡ None }
    ensures { runner.new ≡ back runner.old cpus.now }
{
    if cpus.is_empty() {
        return;
    }
    cpus.stays_below_the_limit();
    for cpu in 0..CPU_LIMIT {
        if cpus.contains(cpu) {
            bring_one(runner, cpu);
        }
    }
}

/// Brings a CPU online, which can come.
fn bring_one<K: Kernel + Drop, B: Bundles + Drop>(runner: &mut Runner<K, B>, cpu: u16)
    requires { online_refusal runner.old.node.kernel cpu ≡ None }
    ensures { runner.new ≡ with_online_cpus runner.old (set.insert runner.old.node.kernel.tree.online cpu) }
{
    let _ = runner.online(u32::from(cpu));
}
