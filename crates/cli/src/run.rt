//! `numarun run`.
ghost use Rattle.std.specs.Prelude.{◌≡◌, IfErr, IfOk, option_map};
ghost use Rattle.answers.specs.Notes.{note_text};
ghost use Rattle.cli.specs.Program.{Finishes, Refuses, Scripts, note_in};
ghost use Rattle.cli.specs.Ready.{IsBadTable, IsReady, IsTableIn, Readies, SetsUp};
ghost use Rattle.cli.specs.RunAnswer.{Plays, is_unread};

use crate::defect::Defect;
use crate::unready::Unready;
use answers::{
    Console, Note, Opens, REFUSED, STANDARD_INPUT, UNWRITTEN, answer_in, print_then_note,
};
use kernel_model::Kernel;
use machine::{Machine, MachineFault};
use node::Node;
use program_io::{Input, ReadFault, Refusal};
use runtime::{Bundles, Runner, boot};
use script::{MOST_READS, ScriptFault, run_script_within};
use slit::Slit;
use std::alloc::{AllocError, Global};
use std::io::{Read, Write};

/// Runs the script that the reader has left over the machine in this file, and prints its answers. If a table is named,
/// its distances are the machine's. Or it prints why one of the files is refused. Both are opened before either is
/// read. If the script can't be read to its end, the last line says so. The status is 0, or 1 for a refusal of a file
/// or of the script, and for an answer that can't be written.
pub fn do_run<F: Opens, B: Bundles + Drop, R: Read, W: Write, E: Write>(
    alloc: Global,
    machine: &str,
    table: Option<&str>,
    files: &F,
    bundles: B,
    script: &mut R,
    console: &mut Console<W, E>,
) -> u8
    // It refuses the machine file or the table beside it, each for its own fault (`SetsUp`). An allocation failure for
    // the machine is told only if the reading answered it, or if no fault shows before the JSON is read (`text_fault`).
    // One for its node is told only if the machine was accepted. Beside E25 standard error says which of its causes
    // holds (`IsDefectOf`): the file is too long, it is no JSON, or it is JSON. If memory is short it names all of
    // them. Or it runs the script over a node with no container, on a kernel of that machine in which nothing was done
    // yet. What is written then is what `script` and `runtime` say of the answers. If the script can't be read, a last
    // line says so, and standard error tells the fault that ended it (`Finishes`, `is_unread`). If it refuses one of
    // the files, or has no room for the node, no byte of the script was read.
    ensures { Scripts W.contents E.contents console.old console.new result (F.opens files.now) (F.fails files.now)
        F.File.gives
        B.finds (B.told bundles) (R.remaining script.old) (R.remaining script.new)
        machine.now (option_map (λ name. name.now) table.entry) }
{
    match set_up(alloc, machine, table, files) {
        Ok(found) => match boot(alloc, found) {
            Ok(node) => {
                let end = play(node, bundles, script, &mut console.out, MOST_READS as u64);
                finish(end, console)
            }
            Err(AllocError) => print_then_note(&Refusal::Memory, REFUSED, &None, console),
        },
        Err(unready) => refuse(machine, table, unready, console),
    }
}

/// Says why one of the two files is refused.
pub fn refuse<W: Write, E: Write>(
    machine: &str,
    table: Option<&str>,
    unready: Unready,
    console: &mut Console<W, E>,
) -> u8
    ensures { Refuses W.contents E.contents console.old console.new result machine.now
        (option_map (λ name. name.now) table.entry) unready }
{
    let refusal = unready.refusal();
    print_then_note(
        &refusal,
        REFUSED,
        &note_in(machine, table, unready),
        console,
    )
}

/// The note beside the refusal of one of the two files, where there is one.
fn note_in<'a>(machine: &'a str, table: Option<&'a str>, unready: Unready) -> Option<Note<'a>>
    ensures { note_text result ≡ note_in machine.now (option_map (λ name. name.now) table.entry) unready }
{
    match unready {
        Unready::Machine(refusal) => Note::beside(refusal, machine),
        Unready::NotJson(defect) => Some(defect.note(machine)),
        Unready::Slit(refusal) => Note::beside(refusal, table.unwrap_or("")),
    }
}

/// The machine in this file, with the distances in that one if it is named. Both are opened first.
pub fn set_up<F: Opens>(
    alloc: Global,
    machine: &str,
    table: Option<&str>,
    files: &F,
) -> Result<Machine, Unready>
    ensures { SetsUp (F.opens files.now) (F.fails files.now) F.File.gives machine.now
        (option_map (λ name. name.now) table.entry) result }
{
    let machine = match files.open(machine) {
        Ok(file) => file,
        Err(error) => return Err(Unready::Machine(Refusal::ReadFault(ReadFault::from(error)))),
    };
    let Some(name) = table else {
        return ready(alloc, machine, None);
    };
    match files.open(name) {
        Ok(table) => ready(alloc, machine, Some(table)),
        Err(error) => Err(Unready::Slit(Refusal::ReadFault(ReadFault::from(error)))),
    }
}

/// The machine in an open input, with the distances in the other one if it is there.
fn ready<I: Input>(alloc: Global, machine: I, table: Option<I>) -> Result<Machine, Unready>
    ensures { Readies I.gives machine table result }
{
    let text = match machine.read_whole(alloc) {
        Ok(text) => text,
        Err(error) => return Err(Unready::Machine(Refusal::from(error))),
    };
    let table = match table_in(alloc, table) {
        Ok(table) => table,
        Err(refusal) => return Err(Unready::Slit(refusal)),
    };
    match described(alloc, text.as_slice(), table.as_ref()) {
        Ok(machine) => Ok(machine),
        Err(refusal) if refusal == Refusal::Machine(MachineFault::NotJson) => {
            Err(Unready::NotJson(Defect::of(alloc, text.as_slice())))
        }
        Err(refusal) => Err(Unready::Machine(refusal)),
    }
}

/// The distance table in the input, where there is one.
fn table_in<I: Input>(alloc: Global, table: Option<I>) -> Result<Option<Slit>, Refusal>
    ensures table { IfOk result (IsTableIn I.gives table) }
    ensures refused { IfErr result (IsBadTable I.gives table) }
{
    match table {
        None => Ok(None),
        Some(input) => Ok(Some(answer_in(alloc, input)?)),
    }
}

/// The machine that a text describes, with a table beside it or without.
fn described(alloc: Global, text: &[u8], table: Option<&Slit>) -> Result<Machine, Refusal>
    ensures { IsReady (option_map (λ t. t.now) table.entry) text.now result }
{
    Ok(Machine::read(alloc, text, table)?)
}

/// Runs the script that the reader has left over a node and bundles, by so many reads at most, and writes its answers.
fn play<K: Kernel + Drop, B: Bundles + Drop, R: Read, W: Write>(
    node: Node<K>,
    bundles: B,
    script: &mut R,
    w: &mut W,
    most_reads: u64,
) -> Result<(), ScriptFault>
    ensures { Plays B.finds most_reads node (B.told bundles) (R.remaining script.old) (R.remaining script.new)
        (W.contents w.old) (W.contents w.new) result }
{
    let mut runner = Runner::new(node, bundles);
    run_script_within(&mut runner, script, w, most_reads)
}

/// Ends a script: says why it could not be read to its end, or why its answers could not be written.
pub fn finish<W: Write, E: Write>(end: Result<(), ScriptFault>, console: &mut Console<W, E>) -> u8
    ensures { Finishes W.contents E.contents console.old console.new result end }
{
    let Err(fault) = end else {
        return print_then_note(&"", 0, &None, console);
    };
    match unread(fault) {
        Some(fault) => {
            let refusal = Refusal::ReadFault(fault);
            let note = Note::beside(refusal, STANDARD_INPUT);
            print_then_note(&refusal, REFUSED, &note, console)
        }
        None => {
            console.err.tell(UNWRITTEN.as_bytes());
            REFUSED
        }
    }
}

/// Why the script could not be read, unless an answer could not be written.
fn unread(fault: ScriptFault) -> Option<ReadFault>
    ensures { is_unread fault result }
{
    match fault {
        ScriptFault::Read(kind) => Some(ReadFault::told(kind)),
        ScriptFault::TooManyReads => Some(ReadFault::TooManyReads),
        ScriptFault::Write => None,
    }
}
