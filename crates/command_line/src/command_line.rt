//! What numarun can be told, in the builder's terms.
ghost use Rattle.std.specs.Prelude.{◌≡◌, ◌⊎◌, ⊤, IfOk, codes, false, map, string_bytes};
ghost use Rattle.clap.specs.Words.{FailsBy, IsAmong, app_of, fault_of, kind_of, rule_of, subcommand_of};
ghost use Rattle.clap.specs.Words.{subcommand_rows_of};
ghost use Rattle.clap.specs.declared.error.kind.ErrorKind.TheVariants.{MissingRequiredArgument, OutOfMemory};
ghost use Rattle.command_line.specs.Asked.{asked_in};
ghost use Rattle.command_line.specs.CommandLine.{IsLeaf, bare, check_command, flag, list_command, numarun, option, required};
ghost use Rattle.command_line.specs.CommandLine.{run_command, slit_command, solve_command};
ghost use Rattle.command_line.specs.Mistakes.{lacks_root, refusals};

use crate::shown::Lines;
use crate::words::{Grammar, Words, asked_words};
use clap::error::ErrorKind;
use clap::{Arg, ArgAction, ArgMatches, Command, Error};
use std::alloc::{AllocError, Global};

const VERSION: &str = "1.0.0";

const HELP: &str =
    "Exit status: 0; 1 if an input is refused or can't be read, if an allocation fails, or if the answer\n\
    can't be written; 2 if the words are no command line, or if an allocation fails while they are parsed,\n\
    or while the help or a mistake is put into words.\n\n\
    Formats and refusals: docs/formats.md. Paths begin at the top of a checkout, or, once installed, at\n\
    PREFIX/share/doc/numarun.\n\n\
    Example: numarun check examples/two-containers.certificate";

const CHECK_HELP: &str =
    "Prints `plan total N` if the certificate proves its plan to be of least cost, `plan total N moves M` if\n\
    it proves it to be of least distance and, among those, to move the fewest CPUs, `short demand N cpus M`\n\
    if it shows that there is none, else why it is refused.\n\n\
    Exit status: 0 if it proves or shows that; 1 if it is refused or can't be read, if an allocation fails, or\n\
    if the answer can't be written; 2 if the words are no command line, or if an allocation fails while they\n\
    are parsed, or while the help or a mistake is put into words.\n\n\
    Format: docs/formats.md, \"Certificates\".\n\n\
    Example: numarun check examples/two-containers.certificate";

const LIST_HELP: &str =
    "Exit status: 0 if the text is a list; 1 if it is refused, if an allocation fails, or if the answer can't\n\
    be written; 2 if the words are no command line, or if an allocation fails while they are parsed, or\n\
    while the help or a mistake is put into words.\n\n\
    Format: docs/formats.md, \"Lists\".\n\n\
    Example: numarun list 3,1-2 prints 1-3";

const SLIT_HELP: &str =
    "Exit status: 0 if the bytes are a table; 1 if they are refused or can't be read, if an allocation fails,\n\
    or if the answer can't be written; 2 if the words are no command line, or if an allocation fails while\n\
    they are parsed, or while the help or a mistake is put into words.\n\n\
    Format: docs/formats.md, \"Distance tables\".\n\n\
    Example: numarun slit /sys/firmware/acpi/tables/SLIT";

const RUN_HELP: &str =
    "Prints an answer to each line, a refusal too, before the next line is read. A bundle is a folder with\n\
    a config.json.\n\n\
    The commands of a script, one a line:\n\
    \x20 create ID BUNDLE      make a container from the bundle in this folder\n\
    \x20 adopt ID BUNDLE LIST  take up a container that runs already on the CPUs of LIST\n\
    \x20 update ID BUNDLE      read its config again, from the bundle in this folder\n\
    \x20 start ID              start its program\n\
    \x20 kill ID SIGNAL        send it a signal, by name or number\n\
    \x20 delete ID             remove it once it is stopped\n\
    \x20 forget ID             let go of a folder of a run before: its CPUs count again\n\
    \x20 state ID              its state as one line\n\
    \x20 list                  the status of each container\n\
    \x20 sets ID               the CPUs and memory nodes that it has\n\
    \x20 rebalance             work out a plan and move all containers onto it\n\
    \x20 rebalance direct      the same, each moved at once if nobody has its new CPUs\n\
    \x20 begin                 work out a plan and begin to move the containers onto it\n\
    \x20 begin direct          the same, to be moved as by rebalance direct\n\
    \x20 step                  make the next write of that hand-over\n\
    \x20 phase                 whether a hand-over is underway\n\
    \x20 certificate           the certificate of the last plan or shortage\n\
    \x20 fork PID              the process makes another one\n\
    \x20 exit PID              the process ends\n\
    \x20 offline CPU           the CPU goes offline\n\
    \x20 online CPU            the CPU comes online\n\n\
    Exit status: 0 if the script was read to its end; 1 if MACHINE, FILE or ROOT is refused, if an input\n\
    can't be read, if an allocation for the machine fails, or if an answer can't be written; 2 if the words\n\
    are no command line, or if an allocation fails while they are parsed, or while the help or a mistake is\n\
    put into words.\n\n\
    Formats: docs/formats.md, \"Scripts\", \"The machine file\" and \"In a cgroup tree\".\n\n\
    Example: numarun run examples/machines/two-socket.json < examples/scripts/two-containers";

const SOLVE_HELP: &str =
    "Prints the certificate of a plan of least cost, or of a shortage if the rows have no plan, for numarun\n\
    check.\n\n\
    Exit status: 0 if the problem is solved; 1 if it is refused or can't be read, if an allocation fails, or\n\
    if the answer can't be written; 2 if the words are no command line, or if an allocation fails while they\n\
    are parsed, or while the help or a mistake is put into words.\n\n\
    Format: docs/formats.md, \"Problems\".\n\n\
    Example: numarun solve examples/caches.problem | numarun check";

/// Said where `--adopt` or `--partition` is given without `--cgroup`.
const LACKING: &str = "the following required arguments were not provided:\n  --cgroup <ROOT>";

fn check<'a>(alloc: Global) -> Result<Command<'a>, AllocError>
    ensures { IfOk result (IsLeaf check_command) }
{
    let file = Arg::new(alloc, "file")
        .value_name("FILE")
        .help("The certificate; none, or -, is standard input");
    Command::new(alloc, "check")
        .about("Check a certificate, as without any command")
        .override_usage("numarun check [FILE]")
        .after_help(CHECK_HELP)
        .arg(file)
}

fn list<'a>(alloc: Global) -> Result<Command<'a>, AllocError>
    ensures { IfOk result (IsLeaf list_command) }
{
    let text = Arg::new(alloc, "text")
        .value_name("TEXT")
        .help("CPU numbers and ranges, as 0-3,8")
        .required(true);
    Command::new(alloc, "list")
        .about("Print a list of CPUs in its shortest form")
        .override_usage("numarun list TEXT")
        .after_help(LIST_HELP)
        .arg(text)
}

fn slit<'a>(alloc: Global) -> Result<Command<'a>, AllocError>
    ensures { IfOk result (IsLeaf slit_command) }
{
    let file = Arg::new(alloc, "file")
        .value_name("FILE")
        .help("The table's bytes; - is standard input")
        .required(true);
    Command::new(alloc, "slit")
        .about("Print the distances of a firmware's table (ACPI SLIT)")
        .override_usage("numarun slit FILE")
        .after_help(SLIT_HELP)
        .arg(file)
}

fn machine<'a>(alloc: Global) -> Arg<'a>
    ensures rule { rule_of result ≡ required (codes "machine") }
    ensures local { result.global ≡ false }
{
    Arg::new(alloc, "machine")
        .value_name("MACHINE")
        .help("The file of the machine")
        .required(true)
}

fn table<'a>(alloc: Global) -> Arg<'a>
    ensures rule { rule_of result ≡ option (codes "slit") }
    ensures local { result.global ≡ false }
{
    Arg::new(alloc, "slit").long("slit").value_name("FILE").help(
        "The distance table's bytes, where MACHINE has no distances",
    )
}

fn cgroup<'a>(alloc: Global) -> Arg<'a>
    ensures rule { rule_of result ≡ option (codes "cgroup") }
    ensures local { result.global ≡ false }
{
    Arg::new(alloc, "cgroup")
        .long("cgroup")
        .value_name("ROOT")
        .help("Make each kernel write below this cgroup v2 folder too")
}

/// An option that has no value.
fn flag<'a>(alloc: Global, word: &'a str, help: &'a str) -> Arg<'a>
    ensures rule { rule_of result ≡ flag word.entry.now }
    ensures local { result.global ≡ false }
{
    Arg::new(alloc, word)
        .long(word)
        .action(ArgAction::SetTrue)
        .help(help)
}

fn run<'a>(alloc: Global) -> Result<Command<'a>, AllocError>
    ensures { IfOk result (IsLeaf run_command) }
{
    Command::new(alloc, "run")
        .about("Run the commands on standard input over a machine")
        .override_usage("numarun run MACHINE [--slit FILE] [--cgroup ROOT [--adopt] [--partition]]")
        .after_help(RUN_HELP)
        .arg(machine(alloc))?
        .arg(table(alloc))?
        .arg(cgroup(alloc))?
        .arg(flag(
            alloc,
            "adopt",
            "With --cgroup: ROOT/numarun may be there already",
        ))?
        .arg(flag(
            alloc,
            "partition",
            "With --cgroup: ROOT has to be a partition root",
        ))
}

fn solve<'a>(alloc: Global) -> Result<Command<'a>, AllocError>
    ensures { IfOk result (IsLeaf solve_command) }
{
    let file = Arg::new(alloc, "file")
        .value_name("FILE")
        .help("The problem; none, or -, is standard input");
    Command::new(alloc, "solve")
        .about("Solve a problem: rows in, the certificate of a least plan out")
        .override_usage("numarun solve [FILE]")
        .after_help(SOLVE_HELP)
        .arg(file)
}

/// The program before its commands.
fn bare<'a>(alloc: Global) -> Command<'a>
    ensures { app_of result ≡ bare }
{
    Command::new(alloc, "numarun")
        .about("Exclusive CPUs for containers on NUMA hosts, by plans that anyone can check")
        .version(VERSION)
        .override_usage("numarun [COMMAND]")
        .after_help(HELP)
        .no_binary_name(true)
        .subcommand_required(true)
}

fn command_line<'a>(alloc: Global) -> Result<Command<'a>, AllocError>
    ensures { IfOk result (λ c. app_of c ≡ numarun) }
{
    bare(alloc)
        .subcommand(check(alloc)?)?
        .subcommand(list(alloc)?)?
        .subcommand(slit(alloc)?)?
        .subcommand(run(alloc)?)?
        .subcommand(solve(alloc)?)
}

/// The matches of the words, by clap's rules alone.
fn matched<'a>(alloc: Global, words: &'a [String]) -> Result<ArgMatches<'a>, Error>
    ensures matches { IfOk result (λ m. subcommand_rows_of m
        ≡ subcommand_of numarun (map string_bytes words.entry.now)) }
    ensures kinds { FailsBy (fault_of numarun (map string_bytes words.entry.now)) result }
{
    command_line(alloc)?.try_get_matches_from(words)
}

/// Whether `--adopt` or `--partition` was given without `--cgroup`, a rule on two arguments.
fn lacks_root(matches: &ArgMatches<'_>) -> bool
    ensures { result ≡ lacks_root (asked_in (subcommand_rows_of matches.now)) }
{
    match asked_words(matches) {
        Words::Run {
            cgroup: None,
            options,
            ..
        } => options.adopt || options.partition,
        _ => false,
    }
}

/// The error where an argument is wanting, in clap's words.
fn lacking(alloc: Global) -> Result<Error, AllocError>
    ensures { IfOk result (λ error. kind_of error ≡ MissingRequiredArgument) }
{
    let mut command = run(alloc)?;
    command.error(ErrorKind::MissingRequiredArgument, LACKING)
}

/// The command line of numarun, taken apart by clap.
#[derive(Clone, Copy)]
pub struct CommandLine;

impl Grammar for CommandLine {
    ghost fails = { λ _ words kind. (kind ≡ OutOfMemory) ⊎ IsAmong kind (refusals words) };

    ghost lacks = { λ _. ⊤ };

    fn matches<'a>(&self, alloc: Global, words: &'a [String]) -> Result<ArgMatches<'a>, Error> {
        let matches = match matched(alloc, words) {
            Ok(matches) => matches,
            Err(error) => return Err(error),
        };
        if lacks_root(&matches) {
            return Err(lacking(alloc)?);
        }
        Ok(matches)
    }

    /// A word that is named in it is shown without its control characters.
    fn text(&self, alloc: Global, error: &Error) -> Result<String, AllocError> {
        let text = error.to_string(alloc)?;
        format!(in alloc; "{}", Lines(text.as_str()))
    }
}
