//! What numarun does with the words that it is called with: every byte that it reads and every byte that it writes.
//!
//! To run scripts from a program of your own use `script` and `runtime`, which open no file and know no command
//! line. The commands that only read one input are those of `answers`.
//!
//! # Proved
//!
//! - What an input's opening and reading may answer is a relation of the trait that it comes by (`Opens`, `Source`,
//!   `Input`). The contracts take that relation as it is. So a body can't tell a fault that the opening or the reading
//!   did not answer.
//! - `Folders` reads as the config of a bundle the file `BUNDLE/config.json` and no other (`IsConfigOf`). By that
//!   `start` says with which bytes each `create`, `adopt` and `update` of a script calls the node. They are those that
//!   may be read of the file of this name in the BUNDLE that the line names (`Scripts` and `ScriptsMirrored` by
//!   `IsConfigIn`). Or there is no such file, or none that can be read.
//! - No clause says what standard error gets of a config that is no JSON or can't be read. The refusal, and what
//!   changes, are as without it.
//! - Trees are lent to the program (`GroupTrees`), and each of its arms says what was asked of them when it ends. By
//!   `check`, `list`, `slit`, `solve`, a `run` without `--cgroup`, the help, a mistake in the words and a machine
//!   file that is refused that is nothing (`Unasked`). By a root that is refused it is its lock, and what is told of
//!   it. By a script that was run in a tree it is what its root was opened by, and then what its last kernel's list
//!   says. The writing calls behind that list are those by which the node began, and then those that the script's
//!   lines stand for, line by line, in order and with their answers (`PlaysMirrored`). So nothing is asked behind
//!   the script's last line.
#![tactic(auto)]

mod arguments;
mod defect;
mod folders;
mod mirroring;
mod program;
mod run;
mod unready;
mod unrooted;

pub use answers::{Console, Disk};
pub use arguments::start;
pub use cgroup_tree::HostTrees;
pub use command_line::CommandLine;
pub use folders::Folders;
pub use mirroring::{Root, do_run_mirrored};
pub use program::run_program;
pub use run::do_run;
