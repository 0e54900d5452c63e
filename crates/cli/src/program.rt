//! The program: words, files and streams in, answers and an exit status out.
ghost use Rattle.std.specs.Prelude.{[], map, option_map, string_bytes};
ghost use Rattle.cgroup_tree.specs.Asked.{Asks};
ghost use Rattle.clap.specs.Words.{kind_of};
ghost use Rattle.command_line.specs.Asked.{asked, run, word_bytes};
ghost use Rattle.cli.specs.Configs.{IsConfigIn};
ghost use Rattle.cli.specs.Program.{Does, ExplainsOrLacks, Runs};

use crate::folders::Folders;
use crate::mirroring::{Root, do_run_mirrored};
use crate::run::do_run;
use answers::{
    Console, MISUSED, Opens, check_named, do_list, print_then_note, slit_named, solve_named,
};
use cgroup_tree::{GroupTrees, RootOptions};
use clap::Error;
use command_line::{Grammar, Words, parse};
use faults::OrMemory;
use program_io::{Input, Refusal};
use std::alloc::Global;
use std::io::{Read, Write};

/// Does what the words of the command line ask for, over these files and standard streams, and tells the exit status.
/// It is 0; or 1 if an input is refused, an allocation fails or the answer can't be written. It is 2 if the words are
/// no command line. It is 2 too if an allocation fails while they are parsed or the help or a mistake is put into
/// words.
pub fn run_program<G: Grammar, F: Opens, T: GroupTrees, R: Read + Input, W: Write, E: Write>(
    alloc: Global,
    grammar: &G,
    words: &[String],
    files: &F,
    trees: &mut T,
    input: R,
    console: &mut Console<W, E>,
) -> u8
    // It does what the words ask for, over any grammar, any files, any reader and any two writers. The contract says
    // which bytes go to which stream, and the exit status of each case.
    ensures { Runs W.contents E.contents console.old console.new result (G.fails grammar.now) (G.lacks grammar.now)
        (Asks T.asked trees.old [] trees.new)
        (Does W.contents E.contents console.old console.new result (F.opens files.now) (F.fails files.now) F.File.gives
        T.Files.asked (T.finds trees.old) T.asked trees.old trees.new (IsConfigIn F.opens F.fails F.File.gives)
        (R.Input.gives input) (R.Read.remaining input)) (map string_bytes words.now) }
{
    match parse(alloc, grammar, words) {
        Ok(asked) => dispatch(alloc, asked, files, trees, input, console),
        Err(OrMemory::Memory) => print_then_note(&Refusal::Memory, MISUSED, &None, console),
        Err(OrMemory::Fault(error)) => print_usage(alloc, grammar, &error, console),
    }
}

fn dispatch<F: Opens, T: GroupTrees, R: Read + Input, W: Write, E: Write>(
    alloc: Global,
    words: Words<'_>,
    files: &F,
    trees: &mut T,
    input: R,
    console: &mut Console<W, E>,
) -> u8
    ensures { Does W.contents E.contents console.old console.new result (F.opens files.now) (F.fails files.now)
        F.File.gives
        T.Files.asked (T.finds trees.old) T.asked trees.old trees.new (IsConfigIn F.opens F.fails F.File.gives)
        (R.Input.gives input) (R.Read.remaining input) (asked words.entry) }
{
    match words {
        Words::Check { file } => check_named(alloc, file.unwrap_or("-"), files, input, console),
        Words::List { text } => do_list(text, console),
        Words::Slit { file } => slit_named(alloc, file, files, input, console),
        Words::Run {
            machine,
            slit,
            cgroup,
            options,
        } => run_in(
            alloc, machine, slit, cgroup, options, files, trees, input, console,
        ),
        Words::Solve { file } => solve_named(alloc, file.unwrap_or("-"), files, input, console),
    }
}

/// Runs the script on standard input over a machine, in the cgroup tree below a root if one is named.
fn run_in<F: Opens, T: GroupTrees, R: Read + Input, W: Write, E: Write>(
    alloc: Global,
    machine: &str,
    table: Option<&str>,
    root: Option<&str>,
    options: RootOptions,
    files: &F,
    trees: &mut T,
    input: R,
    console: &mut Console<W, E>,
) -> u8
    ensures { Does W.contents E.contents console.old console.new result (F.opens files.now) (F.fails files.now)
        F.File.gives
        T.Files.asked (T.finds trees.old) T.asked trees.old trees.new (IsConfigIn F.opens F.fails F.File.gives)
        (R.Input.gives input) (R.Read.remaining input)
        (run machine.now (option_map word_bytes table.entry) (option_map word_bytes root.entry) options) }
{
    let mut script = input;
    let bundles = Folders::new(alloc, files);
    match root {
        None => do_run(alloc, machine, table, files, bundles, &mut script, console),
        Some(path) => {
            let root = Root { path, options };
            do_run_mirrored(
                alloc,
                machine,
                table,
                root,
                files,
                trees,
                bundles,
                &mut script,
                console,
            )
        }
    }
}

/// Prints the help that was asked for, or what is wrong with the words.
fn print_usage<G: Grammar, W: Write, E: Write>(
    alloc: Global,
    grammar: &G,
    error: &Error,
    console: &mut Console<W, E>,
) -> u8
    ensures { ExplainsOrLacks W.contents E.contents console.old console.new result (G.lacks grammar.now)
        (kind_of error.now) }
{
    let Ok(text) = grammar.text(alloc, error) else {
        return print_then_note(&Refusal::Memory, MISUSED, &None, console);
    };
    if error.use_stderr() {
        console.err.tell(text.as_bytes());
        MISUSED
    } else {
        print_then_note(&text, 0, &None, console)
    }
}
