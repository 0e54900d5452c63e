//! Cores and whole sets, and which texts are read: laws over the definitions alone. Nothing here runs.
ghost use Rattle.std.specs.Prelude.{◌≡◌, [], ◌∷◌, Some};
ghost use Rattle.cpu_set.specs.Members.{members};
ghost use Rattle.machine.specs.Cores.{core_of, cores_in, whole_in};
ghost use Rattle.machine.specs.CoresFault.{core_fault, first_core_fault, left_fault};
ghost use Rattle.machine.specs.CoreCountLaws.{CoresAreAlike, WholeIsCounted, AllAreWhole, CpusAreCores, CoresAreCpus};
ghost use Rattle.machine.specs.CoreSumLaws.{CoresWeighAlike, CoresAreNear};
ghost use Rattle.machine.specs.WholeLaws.{WholeIsWithin, WholeIsAll, WholeIsOfCores, CoresAreWhole, CoresStayApart};
ghost use Rattle.machine.specs.WholeLaws.{CoresComeBack, CoresAreWithin, CoresAreLowest, CoresRise, CoresFillWithin};
ghost use Rattle.machine.specs.NodesFault.{twice_fault};
ghost use Rattle.machine.specs.SoundIsRead.{SoundIsRead};
ghost use Rattle.machine.specs.Weight.{weight};
ghost use Rattle.machine.specs.Worked.{ids, two_nodes, two_sockets};

use crate::{MAX_BYTES, MachineFault, NODE_LIMIT};

/// No machine is refused without a cause. Take a text whose members are there, each of its kind, and in which no CPU is
/// offline that is not present. If it lists cores, the present CPUs are shared out between them. If it says a sound
/// machine, it is read as that machine.
pub fn sound_machines_are_read()
    ensures { SoundIsRead }
{}

/// What is whole in a set is within it, and all of it if the set is whole. It is the CPUs of the cores of which the set
/// has all. The CPUs of cores are whole. Cores that share none have CPUs that share none.
pub fn whole_laws()
    ensures within { WholeIsWithin }
    ensures all { WholeIsAll }
    ensures cores { WholeIsOfCores }
    ensures whole { CoresAreWhole }
    ensures apart { CoresStayApart }
{}

/// The cores in a set are named by their lowest CPUs, which the set has. A larger set has no fewer cores. Cores and
/// their CPUs stand for one another.
pub fn core_laws()
    ensures within { CoresAreWithin }
    ensures lowest { CoresAreLowest }
    ensures rise { CoresRise }
    ensures back { CoresComeBack }
    ensures filled { CoresFillWithin }
{}

/// n cores have n × `threads` CPUs, and so has what is whole in a set. If f is the same for all CPUs of a core, as
/// weights are, its sum over the CPUs is `threads` times that over the cores.
pub fn core_counts()
    ensures cores { CoresAreAlike }
    ensures whole { WholeIsCounted }
    ensures sums { CoresWeighAlike }
    ensures near { CoresAreNear }
{}

/// With one CPU to a core each set is whole, and is the set of its cores and of their CPUs.
pub fn single_cores()
    ensures whole { AllAreWhole }
    ensures cores { CpusAreCores }
    ensures cpus { CoresAreCpus }
{}

/// A machine has at most 128 nodes, and a machine file at most 1,048,576 bytes.
pub fn the_limits()
    ensures nodes { NODE_LIMIT ≡ 128 }
    ensures bytes { MAX_BYTES ≡ 1_048_576 }
{}

/// Worked rows of docs/formats.md, "The machine file": the definitions, evaluated.
pub fn worked()
    ensures lowest { core_of two_sockets 7 ≡ 3 }
    ensures cores { members (cores_in two_sockets (ids (1 ∷ 2 ∷ 5 ∷ 7 ∷ []))) ≡ 1 ∷ [] }
    ensures whole { members (whole_in two_sockets (ids (1 ∷ 2 ∷ 5 ∷ 7 ∷ []))) ≡ 1 ∷ 5 ∷ [] }
    ensures near { weight two_sockets (ids (0 ∷ [])) 1 ≡ 10 }
    ensures far { weight two_sockets (ids (0 ∷ [])) 6 ≡ 21 }
    ensures nearest { weight two_sockets (ids (0 ∷ 1 ∷ [])) 6 ≡ 10 }
    ensures twice { twice_fault (ids (0 ∷ 3 ∷ 4 ∷ [])) (ids (3 ∷ 4 ∷ 7 ∷ [])) ≡ Some (MachineFault.CpuTwice 3) }
    ensures no_cpu { first_core_fault two_nodes (ids (0 ∷ 4 ∷ [])) (ids [] ∷ []) ≡ Some (MachineFault.BadCore 0) }
    ensures other_count { core_fault two_nodes (ids (0 ∷ 4 ∷ [])) 2 (ids (1 ∷ 5 ∷ [])) 1 (ids (1 ∷ []))
        ≡ Some (MachineFault.BadCore 1) }
    ensures no_core { left_fault two_nodes (ids (0 ∷ 4 ∷ []) ∷ ids (1 ∷ 5 ∷ []) ∷ ids (2 ∷ 6 ∷ []) ∷ [])
        ≡ Some (MachineFault.NoCore 3) }
{}
