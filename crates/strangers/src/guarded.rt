//! A runtime and the folders of a run before that are no container's.
ghost use Rattle.std.specs.Prelude.{◌≡◌};
ghost use Rattle.cgroup_tree.specs.Asked.{named};
ghost use Rattle.script.specs.Commands.{asked};
ghost use Rattle.script.specs.Ends.{Replies};
ghost use Rattle.runtime.specs.Found.{IsSeen};
ghost use Rattle.strangers.specs.Guarded.{AnswersAway, AnswersPlaced, Forgets, GuardedBy, IsPlanning, knows};

use crate::away::{bring_back, take_away};
use crate::names::{held, knows, let_go};
use byte_output::put;
use cgroup_tree::Stranger;
use kernel_model::Kernel;
use node::Node;
use runtime::{Bundles, Runner};
use script::{Command, Target};
use std::io;
use std::io::Write;
use std::marker::Model;

/// A runtime beside strangers: folders of a run before that are no container's.
#[derive(Drop)]
pub struct Guarded<K: Kernel + Drop, B: Bundles + Drop> {
    runner: Runner<K, B>,
    strangers: Vec<Stranger>,
}

impl<K: Kernel + Drop, B: Bundles + Drop> Model for Guarded<K, B> {
    ghost use Rattle.cgroup_tree.specs.Asked.{named};
    ghost use Rattle.strangers.specs.GuardState.{GuardState, guard_code};

    ghost Value = { GuardState };

    ghost coded = { guard_code };

    ghost view = { λ g. record { runtime = g.runner; strangers = named g.strangers.items } };
}

impl<K: Kernel + Drop, B: Bundles + Drop> Guarded<K, B> {
    /// A runtime beside these strangers.
    pub fn new(runner: Runner<K, B>, strangers: Vec<Stranger>) -> Guarded<K, B>
        ensures { result ≡ record { runtime = runner; strangers = named strangers.items } }
    {
        Guarded { runner, strangers }
    }

    /// The runtime's node, to look at.
    pub fn node(&self) -> &Node<K>
        ensures { result.now ≡ self.now.runtime.node }
    {
        self.runner.node()
    }

    /// The runtime, handed back once its scripts have ended.
    pub fn into_runner(self) -> Runner<K, B>
        ensures { result ≡ self.runtime }
    {
        self.runner
    }

    /// Answers a line that plans or moves, while the CPUs that strangers hold are offline.
    fn answer_away<W: Write>(&mut self, command: Command<'_>, w: &mut W) -> io::Result<()>
        requires { IsPlanning (asked command) }
        ensures { Replies (AnswersAway (IsSeen B.finds) self.old (asked command.entry)) (W.contents w.old)
            (W.contents w.new) result self.new }
    {
        self.runner.node().holds();
        let cpus = take_away(&mut self.runner, &held(&self.strangers));
        let end = self.runner.answer(command, w);
        self.runner.node().holds();
        bring_back(&mut self.runner, &cpus);
        end
    }

    /// Answers a line that asks for a container of this name. A stranger of the name is none any more if there is one
    /// then.
    fn answer_placed<W: Write>(
        &mut self,
        command: Command<'_>,
        id: &str,
        w: &mut W,
    ) -> io::Result<()>
        ensures { Replies (AnswersPlaced (IsSeen B.finds) self.old (asked command.entry) id.now) (W.contents w.old)
            (W.contents w.new) result self.new }
    {
        let end = self.runner.answer(command, w);
        if self.runner.node().sets(id).is_ok() {
            let_go(&mut self.strangers, id);
        }
        end
    }

    /// Answers `forget`: `ok` if there was a stranger of this name.
    fn forget<W: Write>(&mut self, id: &str, w: &mut W) -> io::Result<()>
        ensures { Replies (Forgets (IsSeen B.finds) (knows self.old.strangers id.now) self.old id.now) (W.contents w.old)
            (W.contents w.new) result self.new }
    {
        if !knows(&self.strangers, id) {
            return self.runner.answer(Command::Forget { id }, w);
        }
        let_go(&mut self.strangers, id);
        put(b"ok\n", w)
    }
}

impl<K: Kernel + Drop, B: Bundles + Drop> Target for Guarded<K, B> {
    ghost answers = { GuardedBy B.finds };

    fn answer<W: Write>(&mut self, command: Command<'_>, w: &mut W) -> io::Result<()> {
        match command {
            Command::Forget { id } => self.forget(id, w),
            Command::Create { id, .. } | Command::Adopt { id, .. } => {
                self.answer_placed(command, id, w)
            }
            Command::Rebalance | Command::RebalanceDirectly => self.answer_away(command, w),
            Command::Begin | Command::BeginDirectly => self.answer_away(command, w),
            Command::Step => self.answer_away(command, w),
            _ => self.runner.answer(command, w),
        }
    }
}
