//! How the files of a cgroup v2 tree stand to the model: laws over the definitions alone. Nothing here runs.
ghost use Rattle.std.specs.Prelude.{◌≡◌, true, false, [], ◌∷◌, codes};
ghost use Rattle.kernel_model.specs.Worked.{root, small, web};
ghost use Rattle.cgroup_tree.specs.Asked.{Compared, Made, Written, done, refused};
ghost use Rattle.cgroup_tree.specs.Mirrored.{looks_behind};
ghost use Rattle.cgroup_tree.specs.Partitions.{PartitionIsOwn, StayBelowRoot};
ghost use Rattle.cgroup_tree.specs.Paths.{folder};
ghost use Rattle.cgroup_tree.specs.Roots.{names_cpuset};
ghost use Rattle.cgroup_tree.specs.Standing.{FoldersStand, PlainNamesApart, WritesStand, text_in};
ghost use Rattle.cgroup_tree.specs.Stands.{PastsStand};
ghost use Rattle.cgroup_tree.specs.PastsTold.{PastsAreTold, RefusalsAreTold};

/// If files do what they were asked for and nobody else writes, each group's files have what it requests. A write keeps
/// it so, whether it is done or refused.
pub fn writes()
    ensures { WritesStand }
{}

/// No two groups have one folder.
pub fn folders()
    ensures { PlainNamesApart }
{}

/// A folder that is made or removed keeps it so too.
pub fn changes()
    ensures { FoldersStand }
{}

/// Files stand for the tree after any list of calls of a mirrored kernel, whatever each of them returned. The writing
/// calls of such a list are those that the kernel was asked for. Each call that the files refused was told with its
/// path, and each look that found another line.
pub fn pasts()
    ensures stand { PastsStand }
    ensures told { PastsAreTold }
    ensures noted { RefusalsAreTold }
{}

/// A partition root and the groups outside it are two trees: the root of the one has the partition's CPUs, and that of
/// the other none of these. No group has in effect what its tree's root has not, so no group outside has in effect what
/// a group of the partition has, whatever they request.
pub fn partitions()
    ensures below { StayBelowRoot }
    ensures own { PartitionIsOwn }
{}

/// Worked rows of docs/formats.md, "In a cgroup tree": folders of groups, texts of files after calls, and controllers,
/// with the definitions evaluated.
#[tactic(auto, unfolding(crate::specs::Paths::folder_within, crate::specs::Standing::text_in))]
pub fn worked()
    ensures of_the_root { folder small.tree root ≡ [] }
    ensures of_a_container { folder small.tree web ≡ codes "/numarun/web" }
    ensures written { text_in (done (Written (codes "web/cpuset.cpus") (codes "1-3\n")) ∷ []) (codes "web/cpuset.cpus")
        ≡ Some (codes "1-3\n") }
    ensures other_file { text_in (done (Written (codes "web/cpuset.cpus") (codes "1-3\n"))
        ∷ []) (codes "web/cpuset.mems") ≡ None }
    ensures not_written { text_in (refused (Written (codes "web/cpuset.cpus") (codes "1-3\n"))
        ∷ []) (codes "web/cpuset.cpus") ≡ None }
    ensures written_last { text_in (done (Written (codes "web/cpuset.cpus") (codes "2\n"))
        ∷ done (Written (codes "web/cpuset.cpus") (codes "1-3\n")) ∷ [])
        (codes "web/cpuset.cpus") ≡ Some (codes "2\n") }
    ensures made_again { text_in (done (Made (codes "web")) ∷ done (Written (codes "web/cpuset.cpus") (codes "1-3\n"))
        ∷ [])
        (codes "web/cpuset.cpus") ≡ None }
    ensures has_cpusets { names_cpuset (codes "cpu cpuset io\n") ≡ true }
    ensures has_none { names_cpuset (codes "cpu cpusets io\n") ≡ false }
    ensures looked_behind { looks_behind true (codes "/sys/fs/cgroup/pinned") (Written (codes "web") []) true true
        ≡ done (Compared (codes "/sys/fs/cgroup/pinned/cpuset.cpus.partition") (codes "root\n"))
        ∷ done (Written (codes "web") []) ∷ [] }
    ensures not_looked { looks_behind false (codes "/sys/fs/cgroup/pinned") (Written (codes "web") []) true true
        ≡ done (Written (codes "web") []) ∷ [] }
{}
