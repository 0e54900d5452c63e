//! The words of the command line, and what they ask for.
ghost use Rattle.std.specs.Prelude.{◌≡◌, ℕ, List, [], IfOk, IfErr, OnErr, OnOk, map, option_map, string_bytes};
ghost use Rattle.clap.specs.Words.{FailsBy, first_of, found_of, kind_of, rows_of, subcommand_of, subcommand_rows_of};
ghost use Rattle.clap.specs.declared.error.kind.ErrorKind.{ErrorKind};
ghost use Rattle.command_line.specs.Asked.{asked, asked_by, asked_for, asked_in, is_set, options_of, value};
ghost use Rattle.command_line.specs.CommandLine.{numarun};
ghost use Rattle.command_line.specs.Mistakes.{HasCause, IsFaultOf, mistakes, refusals};

use cgroup_tree::RootOptions;
use clap::error::ErrorKind;
use clap::{ArgMatches, Error};
use faults::OrMemory;
use std::alloc::{AllocError, Global};

/// What takes the words of a command line apart, and words what is wrong with them.
pub trait Grammar {
    /// The kinds of error by which words may fail.
    ghost fails: { Self → List (List ℕ) → ErrorKind → Type 0 };

    /// Whether an allocation may fail for an error's text.
    ghost lacks: { Self → Type 0 };

    /// The matches of the words, which are not empty.
    ///
    /// # Errors
    /// A mistake in the words, their request for the help, or an allocation failure.
    fn matches<'a>(&self, alloc: Global, words: &'a [String]) -> Result<ArgMatches<'a>, Error>
        ensures matches { IfOk result (λ m. subcommand_rows_of m
            ≡ subcommand_of numarun (map string_bytes words.entry.now)) }
        ensures kinds { FailsBy (refusals (map string_bytes words.entry.now)) result }
        ensures fails { IfErr result (λ error. fails self.now (map string_bytes words.entry.now) (kind_of error)) };

    /// The text of an error.
    ///
    /// The only error is an allocation failure.
    fn text(&self, alloc: Global, error: &Error) -> Result<String, AllocError>
        ensures { OnErr result (lacks self.now) };
}

/// What numarun is asked to do.
#[derive(Debug, Drop)]
pub enum Words<'a> {
    /// Check the certificate in the file, or where there is none the one on standard input.
    Check {
        file: Option<&'a str>,
    },
    /// Print the list of CPUs in its one spelling.
    List {
        text: &'a str,
    },
    /// Print the distance table in the file.
    Slit {
        file: &'a str,
    },
    /// Run the script on standard input over the machine of a file, its distances perhaps in a table of their own;
    /// perhaps below the root of a cgroup tree, opened so.
    Run {
        machine: &'a str,
        slit: Option<&'a str>,
        cgroup: Option<&'a str>,
        options: RootOptions,
    },
    /// Solve the problem in the file, or where there is none the one on standard input.
    Solve {
        file: Option<&'a str>,
    },
}

/// What the words after the program's name ask for; no words ask for a check of standard input.
///
/// # Errors
/// `Fault` has the mistake in the words, or their request for the help. `Memory` comes where an allocation of the
/// grammar failed.
pub fn parse<'a, G: Grammar>(
    alloc: Global,
    grammar: &G,
    words: &'a [String],
) -> Result<Words<'a>, OrMemory<Error>>
    // It gives what the words ask for.
    ensures ok { IfOk result (λ asks. asked asks ≡ asked_for (map string_bytes words.entry.now)) }
    ensures accepted { OnOk result (mistakes (map string_bytes words.entry.now) ≡ []) }
    // Else it tells a mistake that they have (`HasCause`). An allocation failure is told only if the grammar answered
    // it. The grammar of the program is `CommandLine`, which is clap's, with a rule beside it: `--adopt` or
    // `--partition` without `--cgroup` is a mistake, in whatever words (`run_spellings`, by `flags_beside`).
    ensures err { IfErr result (HasCause (G.fails grammar.now (map string_bytes words.entry.now))
        (map string_bytes words.entry.now)) }
{
    if words.is_empty() {
        return Ok(Words::Check { file: None });
    }
    match grammar.matches(alloc, words) {
        Ok(matches) => Ok(asked_words(&matches)),
        Err(error) => Err(fault(error)),
    }
}

fn fault(error: Error) -> OrMemory<Error>
    ensures { IsFaultOf error result }
{
    match error.kind() {
        ErrorKind::OutOfMemory => OrMemory::Memory,
        _ => OrMemory::Fault(error),
    }
}

/// What the subcommand that was matched asks for.
pub fn asked_words<'a>(matches: &ArgMatches<'a>) -> Words<'a>
    ensures { asked result ≡ asked_in (subcommand_rows_of matches.now) }
{
    match matches.subcommand() {
        Some((name, given)) => asked_by(name, given),
        None => Words::Check { file: None },
    }
}

fn asked_by<'a>(name: &str, given: &ArgMatches<'a>) -> Words<'a>
    ensures { asked result ≡ asked_by (name.now, rows_of (found_of given.now)) }
{
    match name {
        "list" => Words::List {
            text: value(given, "text"),
        },
        "slit" => Words::Slit {
            file: value(given, "file"),
        },
        "run" => Words::Run {
            machine: value(given, "machine"),
            slit: text(given, "slit"),
            cgroup: text(given, "cgroup"),
            options: options_of(given),
        },
        "solve" => Words::Solve {
            file: text(given, "file"),
        },
        _ => Words::Check {
            file: text(given, "file"),
        },
    }
}

/// The value of an argument that has to be given.
fn value<'a>(given: &ArgMatches<'a>, id: &str) -> &'a str
    ensures { result.now ≡ value id.now (rows_of (found_of given.now)) }
{
    given.get_str(id).unwrap_or("")
}

/// How the tree is opened.
fn options_of(given: &ArgMatches<'_>) -> RootOptions
    ensures { result ≡ options_of (rows_of (found_of given.now)) }
{
    RootOptions {
        adopt: is_set(given, "adopt"),
        partition: is_set(given, "partition"),
    }
}

/// Whether a flag was given.
fn is_set(given: &ArgMatches<'_>, id: &str) -> bool
    ensures { result ≡ is_set id.now (rows_of (found_of given.now)) }
{
    value(given, id) == "true"
}

/// The value of an argument, if it was given.
fn text<'a>(given: &ArgMatches<'a>, id: &str) -> Option<&'a str>
    ensures { option_map (λ word. word.now) result ≡ first_of id.now (rows_of (found_of given.now)) }
{
    given.get_str(id)
}
