//! The answer to a case.

use crate::bytes::write_bytes;
use anyhow::Result;
use std::alloc::Global;

/// How an answer writes its bytes.
#[derive(Clone, Copy)]
pub(crate) enum Form {
    /// In hexadecimal.
    Hex,
    /// As a text where all of them are printable, and else in hexadecimal.
    Text,
}

/// The lines of an answer.
#[derive(Drop)]
pub(crate) struct Answer {
    pub alloc: Global,
    pub form: Form,
    lines: String,
}

impl Answer {
    /// No lines.
    pub fn new(alloc: Global, form: Form) -> Answer {
        Answer {
            alloc,
            form,
            lines: String::new(alloc),
        }
    }

    /// The lines.
    pub fn as_str(&self) -> &str {
        self.lines.as_str()
    }

    /// Adds lines.
    pub fn push(&mut self, lines: &str) -> Result<()> {
        self.lines.push_str(lines)?;
        Ok(())
    }

    /// Adds a line that ends in bytes. Each row of a text of several rows stands in a line of its own.
    pub fn push_bytes(&mut self, words: &str, bytes: &[u8]) -> Result<()> {
        let bytes = write_bytes(self.alloc, self.form, bytes)?;
        let between = if bytes.as_str().contains('\n') {
            "\n  "
        } else {
            " "
        };
        self.lines.push_str(words)?;
        self.lines.push_str(between)?;
        self.lines.push_str(bytes.as_str())?;
        self.lines.push('\n')?;
        Ok(())
    }
}
