//! A kernel whose writes are asked of files first, of which one call fails.
ghost use Rattle.std.specs.Prelude.{◌≡◌, ⊤, false, string_bytes};
ghost use Rattle.cgroup_tree.specs.Site.{Begins};
ghost use Rattle.tools.specs.StartLemmas.{beginning_of};

use crate::calls;
use anyhow::{Context, Result, bail};
use cgroup_tree::{GroupFiles, LineFault, MirroredKernel, Room, Sited, Unasked};
use cpu_set::IdSet;
use kernel_model::ModelKernel;
use std::io;
use std::io::ErrorKind;
use std::marker::Brand;

/// Files that are not there: each call is printed, and the one of this number, from 1, is refused.
#[derive(Drop)]
struct FusedFiles<'a, R> {
    rt: &'a R,
    made: u64,
    fail: u64,
}

impl<R: Print> FusedFiles<'_, R> {
    /// Prints a call, and refuses it where its number says so.
    fn ask(&mut self, what: &str, path: &str, text: &[u8]) -> io::Result<()> {
        self.made = self.made.wrapping_add(1);
        let refused = self.made == self.fail;
        let text = str::from_utf8(text).unwrap_or("");
        let end = if refused { " refused" } else { "" };
        println!(self.rt; "asked {what} {path} {text:?}{end}")?;
        if refused {
            return Err(io::Error::from(ErrorKind::ResourceBusy));
        }
        Ok(())
    }
}

impl<R: Print> GroupFiles for FusedFiles<'_, R> {
    ghost asked = { λ _ _ _. ⊤ };

    fn make_folder(&mut self, path: &str) -> io::Result<()> {
        self.ask("make", path, b"")
    }

    fn remove_folder(&mut self, path: &str) -> io::Result<()> {
        self.ask("remove", path, b"")
    }

    fn unmake_folder(&mut self, path: &str) -> io::Result<()> {
        self.ask("remove", path, b"")
    }

    fn write_file(&mut self, path: &str, text: &[u8]) -> io::Result<()> {
        self.ask("write", path, text)
    }

    fn compare_line(&mut self, path: &str, line: &[u8]) -> Result<(), LineFault> {
        let line = str::from_utf8(line).unwrap_or("");
        let _ = println!(self.rt; "looked {path} {line:?}");
        Ok(())
    }

    fn tell_refusal(&mut self, path: &str, _text: &[u8], _error: &io::Error) {
        let _ = println!(self.rt; "told {path}");
    }

    fn tell_line(&mut self, path: &str, _line: &[u8], _fault: &LineFault) {
        let _ = println!(self.rt; "told {path}");
    }

    fn tell_unasked(&mut self, name: &str, _why: Unasked) {
        let _ = println!(self.rt; "told {name}");
    }
}

/// `mirror FAIL MEMORY`: the calls of `kernel`, over a kernel whose writes are asked of files first, where these nodes
/// have memory. The call of the files with this number is refused. What is asked of them stands before what a call
/// answers.
pub fn over_files<R: AllocGlobal + Print>(rt: &R, words: &[String], text: &[u8]) -> Result<()> {
    let [fail, memory] = words else {
        bail!("tools mirror FAIL MEMORY");
    };
    let (first, lines) = str::from_utf8(text)?.split_once('\n').context("no line")?;
    let inner = calls::new_kernel(rt.alloc(), first)?;
    let memory = calls::ids(memory.as_str())?;
    let root = String::from_str(rt.alloc(), "ROOT")?;
    let lines = String::from_str(rt.alloc(), lines)?;
    let files = FusedFiles {
        rt,
        made: 0,
        fail: fail.as_str().parse()?,
    };
    over::<Brand, R>(rt, inner, root, memory, files, lines)
}

/// The calls of these lines, over this kernel and these files.
fn over<S: Sited, R: AllocGlobal + Print>(
    rt: &R,
    inner: ModelKernel,
    root: String,
    memory: IdSet,
    files: FusedFiles<'_, R>,
    lines: String,
) -> Result<()>
    requires begins { Begins (beginning_of inner) inner }
    requires site { S.site ≡ record {
      root = string_bytes root;
      memory = memory;
      adopt = false;
      partition = false;
      first
          = beginning_of inner;
    } }
{
    let room = Room::below(rt.alloc(), root.as_str())?;
    let mut kernel = MirroredKernel::<FusedFiles<R>, S>::new(
        inner, root, memory, false, files, room,
    );
    calls::one_by_one(rt, &mut kernel, lines.as_str())
}
