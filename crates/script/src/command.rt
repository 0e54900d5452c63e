//! The commands of a script.
/// A line's command.
#[derive(Clone, Copy, Debug, PartialEq, Eq)]
pub enum Command<'a> {
    /// Make a container from the bundle of this name.
    Create {
        id: &'a str,
        bundle: &'a str,
    },
    /// Take up a container of the bundle of this name that has these CPUs already.
    Adopt {
        id: &'a str,
        bundle: &'a str,
        cpus: &'a str,
    },
    /// Read the config of the container again, from the bundle of this name.
    Update {
        id: &'a str,
        bundle: &'a str,
    },
    /// Start the container's program.
    Start {
        id: &'a str,
    },
    /// Send the container a signal.
    Kill {
        id: &'a str,
        signal: &'a str,
    },
    /// Remove a stopped container.
    Delete {
        id: &'a str,
    },
    /// Let go of a group that was there before the run and is no container's: its CPUs count again.
    Forget {
        id: &'a str,
    },
    /// Tell the container's state.
    State {
        id: &'a str,
    },
    /// Tell each container's status.
    List,
    /// Tell which CPUs and memory nodes the container has.
    Sets {
        id: &'a str,
    },
    /// Work out a plan and move all containers onto it.
    Rebalance,
    /// The same in the direct order, in which each container gets its CPUs as soon as nobody has them.
    RebalanceDirectly,
    /// Work out a plan and begin to move the containers onto it.
    Begin,
    /// The same in the direct order.
    BeginDirectly,
    /// Make the next write of the hand-over that is underway.
    Step,
    /// Tell whether a hand-over is underway.
    Phase,
    /// Print the certificate of the last plan or shortage.
    Certificate,
    /// The process makes another one.
    Fork {
        pid: u32,
    },
    /// The process ends.
    Exit {
        pid: u32,
    },
    /// The CPU goes offline.
    Offline {
        cpu: u32,
    },
    /// The CPU comes online.
    Online {
        cpu: u32,
    },
}

/// What a line asks for.
#[derive(Clone, Copy, Debug, PartialEq, Eq)]
pub enum Request<'a> {
    /// There is no word in it.
    Nothing,
    /// E110: it is no command.
    BadLine,
    Asks(Command<'a>),
}
