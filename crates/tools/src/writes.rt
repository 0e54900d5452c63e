//! What writers that fail have of a text.

use crate::pieces::{Paper, kind};
use anyhow::{Result, bail};
use byte_output::{put, put_all};
use certificate_text::{laws, read_text, write_text};
use cpu_set::CPU_LIMIT;
use std::alloc::Global;
use std::io;
use std::io::{ErrorKind, Write};

/// `write WHAT WIDTH FAULT`: for each number of writes before a writer's fault, from none to as many as are enough,
/// prints what is answered, and what the writer has.
pub fn each_fault<R: AllocGlobal + Print>(rt: &R, words: &[String], text: &[u8]) -> Result<()> {
    let [what, width, fault] = words else {
        bail!("tools write WHAT WIDTH FAULT");
    };
    let width: usize = width.as_str().parse()?;
    let fault = kind(fault.as_str())?;
    for writes in 0..100_000 {
        let mut paper = Paper {
            taken: Vec::new(rt.alloc()),
            width,
            writes,
            fault,
            stuck: false,
        };
        let answer = write(rt.alloc(), what.as_str(), text, &mut paper)?;
        if shown(rt, answer, &paper)? {
            return Ok(());
        }
    }
    bail!("no number of writes is enough")
}

/// Prints an answer and what the writer has; whether all of it was written.
fn shown<R: Print>(rt: &R, answer: io::Result<()>, paper: &Paper) -> Result<bool> {
    let taken = str::from_utf8(paper.taken.as_slice())?;
    match answer {
        Ok(()) => {
            println!(rt; "Ok {taken:?}")?;
            Ok(true)
        }
        Err(e) => {
            let kind: ErrorKind = e.kind();
            println!(rt; "{kind:?} {taken:?}")?;
            Ok(false)
        }
    }
}

/// Writes the bytes, or what they stand for.
fn write<W: Write>(alloc: Global, what: &str, bytes: &[u8], w: &mut W) -> Result<io::Result<()>> {
    match what {
        "bytes" => Ok(put(bytes, w)),
        "parts" => Ok(put_all(
            &[b"<".as_slice(), bytes, b"".as_slice(), b">".as_slice()],
            w,
        )),
        "list" => match cpu_list::read(bytes, CPU_LIMIT) {
            Ok(set) => Ok(cpu_list::write_list(&set, w)),
            Err(_) => bail!("this is no list"),
        },
        "certificate" => copy(alloc, bytes, w),
        _ => bail!("nothing writes {what}"),
    }
}

/// Reads a certificate, and writes it.
fn copy<W: Write>(alloc: Global, text: &[u8], w: &mut W) -> Result<io::Result<()>> {
    let Ok(certificate) = read_text(alloc, text) else {
        bail!("this is no certificate");
    };
    laws::read_certificates_can_be_written();
    Ok(write_text(&certificate, w))
}
