//! The program from its arguments on.
ghost use Rattle.std.specs.Prelude.{◌≡◌, [], MatchResult, drop, map, string_bytes};
ghost use Rattle.cgroup_tree.specs.Asked.{Asks};
ghost use Rattle.cli.specs.Configs.{IsConfigIn};
ghost use Rattle.cli.specs.Program.{Does, Runs};
ghost use Rattle.cli.specs.Start.{Stops};

use crate::program::run_program;
use answers::{Console, MISUSED, Opens, REFUSED, print_then_note};
use cgroup_tree::GroupTrees;
use command_line::Grammar;
use program_io::{Input, Refusal};
use std::alloc::Global;
use std::io;
use std::io::{ErrorKind, Read, Write};

const NO_TEXT: &str = "error: the words of the command line are not UTF-8\n";

/// Runs the program on its arguments, of which the first is its name; the exit status.
///
/// The status is 1 where an allocation for the words failed, and 2 where they are no text; beyond that see
/// [`run_program`].
pub fn start<G: Grammar, F: Opens, T: GroupTrees, R: Read + Input, W: Write, E: Write>(
    alloc: Global,
    grammar: &G,
    arguments: io::Result<Vec<String>>,
    files: &F,
    trees: &mut T,
    input: R,
    console: &mut Console<W, E>,
) -> u8
    // It is `run_program` from the arguments on.
    ensures { MatchResult arguments
        (λ given. Runs W.contents E.contents console.old console.new result (G.fails grammar.now) (G.lacks grammar.now)
        (Asks T.asked trees.old [] trees.new)
        (Does W.contents E.contents console.old console.new result (F.opens files.now) (F.fails files.now) F.File.gives
        T.Files.asked (T.finds trees.old) T.asked trees.old trees.new (IsConfigIn F.opens F.fails F.File.gives)
        (R.Input.gives input) (R.Read.remaining input)) (map string_bytes (drop 1 given.items)))
        (λ error. Stops W.contents E.contents console.old console.new result error × Asks T.asked trees.old [] trees.new) }
{
    match arguments {
        Ok(arguments) => {
            let words = behind_name(arguments.as_slice());
            run_program(alloc, grammar, words, files, trees, input, console)
        }
        Err(error) => match error.kind() {
            ErrorKind::OutOfMemory => print_then_note(&Refusal::Memory, REFUSED, &None, console),
            _ => {
                console.err.tell(NO_TEXT.as_bytes());
                MISUSED
            }
        },
    }
}

fn behind_name(arguments: &[String]) -> &[String]
    ensures { result.now ≡ drop 1 arguments.now }
{
    match arguments {
        [_, words @ ..] => words,
        [] => arguments,
    }
}
