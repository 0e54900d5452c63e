//! Plans, and the hand-overs to them.
ghost use Rattle.std.specs.Prelude.{◌≡◌, ◌+◌, ◌*◌, ◌<◌, ◌≤◌, ◌^◌, true, false, Some, IsTrue, IfOk};
ghost use Rattle.std.specs.Result.{result_map_both};
ghost use Rattle.certificate.specs.Limits.{rows_fit};
ghost use Rattle.cpu_set.specs.declared.TheConstants.{CPU_LIMIT};
ghost use Rattle.certificate.specs.IsShortage.{IsShortage};
ghost use Rattle.certificate_text.specs.Written.{CanWrite, IsHeld};
ghost use Rattle.node.specs.IsNode.{ProvesItself, IsKept};
ghost use Rattle.node.specs.Kept.{KeepsCpus};
ghost use Rattle.node.specs.NodeState.{is_underway};
ghost use Rattle.node.specs.Owners.{owners_of};
ghost use Rattle.node.specs.Ongoing.{IsOngoing};
ghost use Rattle.node.specs.Viewed.{seen_ongoing};
ghost use Rattle.node.specs.declared.order.Order.TheVariants.{InTurn, Directly};
ghost use Rattle.node.specs.declared.phase.Phase.TheVariants.{Underway};
ghost use Rattle.node.specs.RebalancesBy.{RebalancesBy};
ghost use Rattle.node.specs.Rebalance.{Begins, ComesTo, Finishes, Rebalances, WorksOut, IsNeed, ShowsCertificate};

use crate::ongoing::Ongoing;
use crate::opening::kept_cpus;
use crate::{Node, NodeFault, Order, Outcome, Phase};
use certificate::{Certificate, Cost, Problem, Weights, check_shortage, offered_to};
use cpu_set::IdSet;
use faults::OrMemory;
use kernel_model::{Kernel, KernelFault};
use machine::Machine;
use solution::decide;
use std::alloc::AllocError;

/// So many cores as a count of CPUs.
fn in_cpus(cores: u64, threads: u32) -> u64
    requires cores { cores < 2 ^ 48 }
    requires threads { threads ≤ CPU_LIMIT }
    ensures { result ≡ cores * threads }
{
    cores * u64::from(threads)
}

/// How many CPUs the members of a shortage ask for together, and those of the cores that one of them may get.
fn need_of(machine: &Machine, problem: &Problem, members: &[usize]) -> (u64, IdSet)
    requires fit { IsTrue (rows_fit problem.now) }
    requires short { IsShortage problem.now members.now }
    ensures { IsNeed machine.now problem.now members.now result.0 result.1 }
{
    let Ok((asked, there)) = check_shortage(problem, members) else {
        unreachable!()
    };
    let cores = offered_to(problem.rows.as_slice(), members);
    let count = cores.count();
    prove!(count == there);
    (
        in_cpus(asked, machine.threads()),
        machine.cpus_of_cores(&cores),
    )
}

impl<K: Kernel + Drop> Node<K> {
    /// Opens a hand-over to a plan that leaves this pool.
    fn open_to(&mut self, pool: IdSet, ongoing: Ongoing)
        requires { IsOngoing self.old.kernel (owners_of self.old.containers) (seen_ongoing ongoing) }
        ensures { self.new ≡ record self.old { pool = pool; phase = Underway; ongoing = Some (seen_ongoing ongoing) } }
    {
        self.pool = pool;
        self.phase = Phase::Underway;
        self.ongoing = Some(ongoing);
    }

    /// How many CPUs each core has.
    fn threads(&self) -> u32
        ensures is { result ≡ self.now.machine.threads }
        ensures few { result ≤ CPU_LIMIT }
    {
        self.machine.threads()
    }

    /// Keeps the certificate of what was worked out, and these CPUs of it.
    fn keep(&mut self, certificate: Certificate, kept: Vec<IdSet>)
        requires can { IsKept certificate }
        requires cpus { KeepsCpus self.old.machine (Some certificate) kept.items }
        ensures { self.new ≡ record self.old { last = Some certificate } }
    {
        self.last = Some(certificate);
        self.kept = kept;
    }

    /// What the problem comes to: the best plan, or a shortage.
    fn answer(&self) -> Result<Certificate, AllocError>
        ensures best { IfOk result (ComesTo self.now) }
        ensures kept { IfOk result IsKept }
    {
        self.holds();
        certificate::laws::what_is_within_the_limits();
        decide(self.alloc, self.problem()?, Weights::WithMoves)
    }

    /// Plans, and opens the hand-over to the plan in this order; or finds a shortage.
    fn plan_and_open(&mut self, order: Order) -> Result<Outcome, AllocError>
        requires { is_underway self.old.phase ≡ false }
        ensures { WorksOut order self.old result self.new }
    {
        let certificate = self.answer()?;
        let (outcome, kept) = match &certificate {
            Certificate::Plan { plan, total, .. } => {
                let cores = plan.sets.as_slice();
                let kept = kept_cpus(self.alloc, &self.machine, cores)?;
                let (pool, ongoing) = self.opening(order, cores, kept.as_slice())?;
                self.open_to(pool, ongoing);
                let distance = Cost::unpack(*total).distance;
                (Outcome::Plan(in_cpus(distance, self.threads())), kept)
            }
            Certificate::Short {
                problem,
                members,
                ..
            } => {
                let (asked, allowed) = need_of(&self.machine, problem, members.rows.as_slice());
                (Outcome::Short { asked, allowed }, Vec::new(self.alloc))
            }
        };
        self.keep(certificate, kept);
        Ok(outcome)
    }

    /// Plans, and opens the hand-over to the plan in this order, unless one is open.
    fn begin_in(&mut self, order: Order) -> Result<Outcome, OrMemory<NodeFault>>
        ensures { Begins order self.old result self.new }
    {
        if self.phase.is_underway() {
            return Err(OrMemory::Fault(NodeFault::Busy));
        }
        Ok(self.plan_and_open(order)?)
    }

    /// Works out a plan of the live containers of least total distance to the home nodes. Among all plans of that total
    /// it moves the fewest cores. It opens the hand-over to it, of which [`step`](Node::step) makes the writes one by
    /// one. If there is no plan, a shortage shows why. In the kernel nothing is written.
    ///
    /// # Errors
    /// `Busy`, or an allocation failure; then all is as before.
    pub fn begin(&mut self) -> Result<Outcome, OrMemory<NodeFault>>
        // The plan is of the live pinned containers' rows, in the order of creation, over the cores that are online as
        // a whole. The CPUs of its cores are at the total that is answered. None that the containers could have are
        // nearer, and none that are as near move fewer cores (`best`). The cores are a plan of least cost of the rows
        // by distance (`least`). The total is that cost, for each CPU that a core has (`counts`). Twins of the scaled
        // rows are dealt by the rule (`decides`). It opens the hand-over to the plan, or answers a shortage if there is
        // none. Either way the certificate is of these rows, scaled, and nothing is written.
        ensures { Begins InTurn self.old result self.new }
    {
        self.begin_in(Order::InTurn)
    }

    /// Works out what [`begin`](Node::begin) does, and opens the hand-over to it in the direct order (make before
    /// break): a container gets its CPUs as soon as no rival has any of them, and gives way only in a ring of
    /// containers that wait for each other.
    ///
    /// # Errors
    /// Those of `begin`.
    pub fn begin_directly(&mut self) -> Result<Outcome, OrMemory<NodeFault>>
        // What it answers is what `begin` would, of the same plan. The hand-over that it opens goes in the direct
        // order.
        ensures { Begins Directly self.old result self.new }
    {
        self.begin_in(Order::Directly)
    }

    /// Makes all writes of the open hand-over, up to the first that fails; either ends it.
    fn finish(&mut self) -> Result<(), KernelFault>
        requires { is_underway self.old.phase ≡ true }
        ensures { Finishes self.old result self.new }
    {
        let Some(mut ongoing) = self.ongoing.take() else {
            unreachable!()
        };
        match ongoing.course.finish(&mut self.kernel, &self.machine) {
            Ok(()) => {
                self.phase = Phase::Settled;
                Ok(())
            }
            Err(fault) => {
                self.phase = Phase::Unsettled;
                Err(fault)
            }
        }
    }

    /// Works out a plan and makes all writes of its hand-over in this order.
    fn rebalance_in(&mut self, order: Order) -> Result<Outcome, OrMemory<NodeFault>>
        ensures { Rebalances order self.old result self.new }
    {
        let outcome = self.begin_in(order)?;
        if let Outcome::Plan(_) = outcome {
            if let Err(fault) = self.finish() {
                return Err(OrMemory::Fault(NodeFault::Kernel(fault)));
            }
        }
        Ok(outcome)
    }

    /// Works out a plan of the live containers and moves them onto it. Each one that asks for CPUs of its own then has
    /// as many, of whole cores, all allowed, online and in nobody else's set. No plan undercuts their total distance to
    /// the home nodes, and among all plans of that total none moves fewer cores. The others share the pool. If there is
    /// no plan, nothing is written. A shortage then names containers that together ask for more CPUs than the whole
    /// cores that they may have offer.
    ///
    /// All memory is taken before the first write, the kernel's too: a mirrored one makes its paths and lines in room
    /// that it has.
    ///
    /// ```text
    /// node.create("a", "bundle", config)?;
    /// match node.rebalance()? {
    ///     Outcome::Plan(distance) => {}           // each live container has its CPUs
    ///     Outcome::Short { asked, allowed } => {} // nothing was written
    /// }
    /// let certificate = node.certificate()?;      // proves the one or the other
    /// ```
    ///
    /// `tools run` makes these calls for the commands of a script, over a kernel of which each write fails in turn
    /// (`tests/runs.sh`).
    ///
    /// # Errors
    /// In this order: `Busy`; an allocation failure; `Failed` of the kernel: the hand-over is over, each container
    /// requests what it did before, or what it keeps of that, or its target, and the next call starts from there.
    pub fn rebalance(&mut self) -> Result<Outcome, OrMemory<NodeFault>>
        // - `headline`: What the host has then (`specs/Headline.antt`).
        // - `told`: What the certificate tells of that (`specs/Tells.antt`). **A shortage names only those to blame**:
        //   if any one member is left out, the rows of the other members have a plan.
        // - `broken`: If a write failed, each container requests what it did before, what it keeps of that, or what the
        //   plan gave it. Nothing else changed in the kernel but what it tells and counts, and the hand-over is over.
        //   The plan that it began was as good as that of `begin`, and the certificate tells it (`best` and `told` of
        //   `IsBrokenOff`).
        // - `rebalances`: It is `begin`, and what single steps until the hand-over ends would do. `Busy` and an
        //   allocation failure change nothing.
        // - `counted`: A failure is counted.
        // - `made`: To a plan it makes exactly the writing calls that were to come of the hand-over to the sets then in
        //   effect. These are at most two for each live container. If a write fails, at most one more than two for each
        //   is made, and if there is no plan none.
        ensures { RebalancesBy InTurn self.old result self.new }
    {
        self.holds();
        self.rebalance_in(Order::InTurn)
    }

    /// Works out what [`rebalance`](Node::rebalance) does, and moves the containers in the direct order (make before
    /// break): each gets its CPUs as soon as no rival has any of them. It runs on the reserved CPUs on its way only if
    /// it stands in a ring of containers that wait for each other, in which nobody can give way otherwise.
    ///
    /// It looks all containers through a few times, and once more for each ring. All memory is taken before the first
    /// write.
    ///
    /// # Errors
    /// Those of `rebalance`; after `Failed` each container requests none but CPUs that it requested before, of what the
    /// plan gave it, reserved or allowed to it, and all that the plan gave it and it requested before.
    pub fn rebalance_directly(&mut self) -> Result<Outcome, OrMemory<NodeFault>>
        // - `headline`: The host has then what `rebalance` leaves it.
        // - `told`: The certificate tells the same.
        // - `broken`: If a write failed, each container requests what it may on its way. Nothing else changed in the
        //   kernel but what it tells and counts, and the hand-over is over. The plan was as good as that of `begin`,
        //   and the certificate tells it.
        // - `rebalances`: It is `begin_directly`, and single writes until the hand-over ends. By each a container takes
        //   its CPUs, of which no rival has any, or it is the one that a single step makes. `Busy` and an allocation
        //   failure change nothing.
        // - `counted`: A failure is counted.
        // - `made`: It makes at most two writing calls for each live container. If a write fails, at most one more is
        //   made, and if there is no plan none.
        ensures { RebalancesBy Directly self.old result self.new }
    {
        self.holds();
        self.rebalance_in(Order::Directly)
    }

    /// The certificate of the last plan or shortage that was worked out. It can be written as text, in numbers that its
    /// types hold, and its own check accepts it.
    ///
    /// # Errors
    /// `NoAnswer`.
    pub fn certificate(&self) -> Result<&Certificate, NodeFault>
        ensures shows { ShowsCertificate self.now (result_map_both (λ c. c.now) (λ fault. fault) result) }
        // It can be written as text.
        ensures can { IfOk result (λ c. CanWrite c.now) }
        // Its numbers and sets are such as their types hold.
        ensures held { IfOk result (λ c. IsHeld c.now) }
        // It proves itself (`ProvesItself`).
        ensures proved { IfOk result (λ c. ProvesItself c.now) }
    {
        match &self.last {
            Some(certificate) => Ok(certificate),
            None => Err(NodeFault::NoAnswer),
        }
    }
}
