//! The problems of certificates.

use anyhow::{Result, bail};
use certificate::{Certificate, Problem};
use certificate_text::read_text;
use faults::OrMemory;
use std::alloc::{AllocError, Global};

/// The problems of certificates that stand one after another.
pub fn problems_of(alloc: Global, texts: &[u8]) -> Result<Vec<Problem>> {
    let mut problems = Vec::new(alloc);
    let mut text = Vec::new(alloc);
    for byte in texts {
        text.push(*byte)?;
        if text.as_slice().ends_with(b"\nend\n") {
            match problem_of(alloc, text.as_slice())? {
                Some(problem) => problems.push(problem)?,
                None => bail!("this is no certificate"),
            }
            text.clear();
        }
    }
    Ok(problems)
}

/// The problem of a certificate, where the text is one.
pub fn problem_of(alloc: Global, text: &[u8]) -> Result<Option<Problem>, AllocError> {
    match read_text(alloc, text) {
        Ok(Certificate::Plan { problem, .. }) => Ok(Some(problem)),
        Ok(Certificate::Short { problem, .. }) => Ok(Some(problem)),
        Err(OrMemory::Memory) => Err(AllocError),
        Err(OrMemory::Fault(_)) => Ok(None),
    }
}
