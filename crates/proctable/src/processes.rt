//! The live processes: a first process each, and those that belong to it.
ghost use Rattle.std.specs.Prelude.{◌≡◌, ◌≢◌, ◌≤◌, true, Some, IfOk, OnErr};
ghost use Rattle.faults.specs.Calls.{Decides};
ghost use Rattle.proctable.specs.Processes.{process_of, is_alive, group_of, count_in};
ghost use Rattle.proctable.specs.TableChanges.{first_table, exited, ended_in};
ghost use Rattle.proctable.specs.TableAnswers.{exit_refusal, has_pids, AddsProcess, Spawns, Forks};
ghost use Rattle.proctable.specs.TableWellFormed.{IsWellFormed};
ghost use Rattle.proctable.specs.Kept.{BelongsNext};
ghost use Rattle.proctable.specs.declared.processes.Process.{Process};

use crate::slots::{Slot, count_of, end_one, pack_where_half_ended, process_in};
use crate::{LAST_PID, ProcFault};
use cpuset_tree::Group;
use faults::OrMemory;
use std::alloc::{AllocError, Global};
use std::marker::Model;

/// A live process.
#[derive(Clone, Copy, Debug, PartialEq, Eq)]
pub struct Process {
    /// Its number, which no other process has had or will have.
    pub pid: u32,
    /// The group that it is in.
    pub group: Group,
    /// The first process that it belongs to; its own pid, if it is one.
    pub first: u32,
}

/// The live processes. Their pids rise and are never used again.
///
/// Of p live processes `alive` and `group_of` take O(log p) steps, `spawn` and `fork` those of a search and a push,
/// `count_in` and `end_in` O(p), and so `exit` of a first process. The `exit` of another takes O(log p) amortized: it
/// is marked as ended, and those that have ended are taken out once they are more than the live ones.
#[derive(Drop)]
pub struct ProcTable {
    // By rising pid, with some that have ended.
    slots: Vec<Slot>,
    // How many of them have ended: at most half.
    ended: usize,
    next_pid: u32,
}

impl Model for ProcTable {
    ghost use Rattle.proctable.specs.TableState.{TableState, table_code};

    ghost Value = { TableState };

    ghost coded = { table_code };

    ghost use Rattle.proctable.specs.Kept.{live_of, IsSound};

    ghost view = { λ t. record {
      live = live_of t.slots.items;
      next_pid = t.next_pid;
    } };

    ghost invariant = { λ t. IsSound t.slots.items t.ended t.next_pid };
}

impl ProcTable {
    /// A table with no process, whose first process gets this pid. Allocates nothing.
    pub fn new(alloc: Global, first_pid: u32) -> ProcTable
        requires low { 2 ≤ first_pid }
        requires high { first_pid ≤ LAST_PID }
        ensures { result ≡ first_table first_pid }
    {
        ProcTable {
            slots: Vec::new(alloc),
            ended: 0,
            next_pid: first_pid,
        }
    }

    /// What holds of each table; nothing runs.
    pub fn well_formed(&self)
        ensures { IsWellFormed self.now }
    {
        let _ = &self.slots;
    }

    fn process(&self, pid: u32) -> Option<Process>
        ensures { result ≡ process_of self.now pid }
    {
        process_in(self.slots.as_slice(), pid)
    }

    /// Whether a process of this pid is alive.
    pub fn alive(&self, pid: u32) -> bool
        ensures { result ≡ is_alive self.now pid }
    {
        self.process(pid).is_some()
    }

    /// The group of a live process.
    pub fn group_of(&self, pid: u32) -> Option<Group>
        ensures { result ≡ group_of self.now pid }
    {
        self.process(pid).map(|process| process.group)
    }

    /// How many live processes a group has.
    pub fn count_in(&self, group: Group) -> usize
        ensures { result ≡ count_in self.now group }
    {
        count_of(self.slots.as_slice(), group)
    }

    /// Whether a pid is left for one process more.
    pub fn has_pids(&self) -> bool
        ensures { result ≡ has_pids self.now }
    {
        self.next_pid <= LAST_PID
    }

    /// Makes a first process in a group.
    ///
    /// # Errors
    /// [`ProcFault::NoPids`].
    pub fn spawn(&mut self, group: Group) -> Result<u32, OrMemory<ProcFault>>
        ensures { Spawns self.old group result self.new }
    {
        if self.next_pid > LAST_PID {
            return Err(OrMemory::Fault(ProcFault::NoPids));
        }
        Ok(self.add(group, self.next_pid)?)
    }

    /// Makes a process in its parent's group, which belongs to its parent's first process.
    ///
    /// # Errors
    /// In this order: [`ProcFault::NoProcess`], [`ProcFault::NoPids`].
    pub fn fork(&mut self, parent: u32) -> Result<u32, OrMemory<ProcFault>>
        ensures { Forks self.old parent result self.new }
    {
        let Some(process) = self.process(parent) else {
            return Err(OrMemory::Fault(ProcFault::NoProcess));
        };
        if self.next_pid > LAST_PID {
            return Err(OrMemory::Fault(ProcFault::NoPids));
        }
        Ok(self.add(process.group, process.first)?)
    }

    fn add(&mut self, group: Group, first: u32) -> Result<u32, AllocError>
        requires pids { self.old.next_pid ≤ LAST_PID }
        requires belongs { BelongsNext self.old group first }
        ensures ok { IfOk result (λ pid. AddsProcess self.old group first pid self.new) }
        ensures err { OnErr result (self.new ≡ self.old) }
    {
        let pid = self.next_pid;
        let process = Process { pid, group, first };
        self.slots.push(Slot {
            process,
            ended: false,
        })?;
        self.next_pid = pid + 1;
        Ok(pid)
    }

    /// Ends a process, and all that belong to it if it is a first one.
    ///
    /// # Errors
    /// [`ProcFault::NoProcess`].
    pub fn exit(&mut self, pid: u32) -> Result<(), ProcFault>
        ensures { Decides (exit_refusal self.old pid) (λ _ new. new ≡ exited self.old pid) self.old result self.new }
    {
        let Some(process) = self.process(pid) else {
            return Err(ProcFault::NoProcess);
        };
        if process.first == pid {
            self.end_with(pid);
        } else {
            self.end_alone(pid);
        }
        Ok(())
    }

    /// Ends a process and all that belong to it.
    fn end_with(&mut self, pid: u32)
        ensures { self.new ≡ exited self.old pid }
    {
        self.ended = 0;
        self.slots.retain(|slot| {
            !slot.ended && !(slot.process.pid == pid || slot.process.first == pid)
        });
    }

    /// Ends a process to which no other belongs, since it is no first one.
    fn end_alone(&mut self, pid: u32)
        requires other { (p : Process) → process_of self.old pid ≡ Some p → p.first ≢ pid }
        requires alive { is_alive self.old pid ≡ true }
        ensures { self.new ≡ exited self.old pid }
    {
        let ended = self.ended + 1;
        end_one(&mut self.slots, pid);
        self.ended = pack_where_half_ended(&mut self.slots, ended);
    }

    /// Ends all processes of a group.
    pub fn end_in(&mut self, group: Group)
        ensures { self.new ≡ ended_in self.old group }
    {
        self.ended = 0;
        self.slots
            .retain(|slot| !slot.ended && slot.process.group != group);
    }
}
