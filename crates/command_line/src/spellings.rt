//! Laws of the command line in plain words.
ghost use Rattle.command_line.specs.Spellings.{CheckSpellings, ListSpellings, RunSpellings, SlitSpellings, SolveSpellings};

/// No words and `check` ask for a check of standard input. `check FILE` asks for that of the file, if its name doesn't
/// begin with a hyphen or has `--` before it.
pub fn check_spellings()
    ensures { CheckSpellings }
{}

/// `list TEXT` asks for the spelling of that list, if the text is a lone hyphen, doesn't begin with one or has `--`
/// before it.
pub fn list_spellings()
    ensures { ListSpellings }
{}

/// `slit FILE` asks for the distance table in that file, if its name doesn't begin with a hyphen or has `--` before it.
pub fn slit_spellings()
    ensures { SlitSpellings }
{}

/// `run MACHINE` asks for a run over the machine in that file, if its name doesn't begin with a hyphen or has `--`
/// before it. With `--slit FILE`, with `--cgroup ROOT`, or with that and `--adopt` or `--partition`, it asks for one
/// with these, if no name begins with a hyphen. They stand behind the machine or before it. `--adopt` without
/// `--cgroup` is a mistake, and so is `--partition`, in whatever words (`flags_beside`).
pub fn run_spellings()
    ensures { RunSpellings }
{}

/// `solve` asks for the solution of the problem on standard input. `solve FILE` asks for that of the file's, if its
/// name doesn't begin with a hyphen or has `--` before it.
pub fn solve_spellings()
    ensures { SolveSpellings }
{}
