// Verdict files.
ghost use Rattle.std.specs.Prelude.{◌≡◌};

use crate::line::{Key, next_line, read_line};
use crate::{Verdict, Verifier};
use base_types::{Hash, InputKind};
use std::alloc::Global;
use std::collections::HashMap;
use thiserror::Error;

/// The first bad line of a verdict file, from 1, and what is wrong with it: Form or Repeated.
#[derive(Clone, Copy, Debug, PartialEq, Eq, Error)]
#[error("{kind}, in line {line}")]
pub struct BadLine {
    pub line: u64,
    pub kind: InputKind,
}

/// Why a verdict file was not read.
#[derive(Clone, Copy, Debug, PartialEq, Eq, Error)]
pub enum VerdictFault {
    #[error(transparent)]
    Bad(BadLine),
    /// The file goes on behind the bytes that were had, and no line in them is bad.
    #[error("the file is too large")]
    Large,
    #[error("out of memory")]
    Memory,
}

/// The verdicts of a file, one for each input that a line of it speaks of.
///
/// Its `verdict` is what the file gives this input; takes no memory.
#[derive(Drop)]
pub struct VerdictFile {
    words: HashMap<Key, bool>,
}

// The fault of a line.
fn bad(line: u64, kind: InputKind) -> VerdictFault
    ensures { result ≡ VerdictFault.Bad (record { line = line; kind = kind }) }
{
    VerdictFault::Bad(BadLine { line, kind })
}

impl VerdictFile {
    ghost use Rattle.sentinel.specs.Files.{ReadsVerdicts};

    /// Reads the lines of a verdict file: its first bytes, and whether it goes on behind them. The first bad line
    /// is told, whatever stands behind it.
    ///
    /// At Ok the bytes are lines in form, each for an input of its own, the file doesn't go on, and the file gives each input its line's word and
    /// no other input any; else the first wrong line with its kind, or that the file goes on and no whole line is wrong; or memory ran out.
    pub fn read(alloc: Global, bytes: &[u8], more: bool) -> Result<VerdictFile, VerdictFault>
        ensures { ReadsVerdicts more bytes.now result }
    {
        let mut words = HashMap::new(alloc);
        let mut rest = bytes;
        let mut line = 1;
        'lines: while let Some((text, behind)) = next_line(rest) {
            let Some((key, good)) = read_line(text) else {
                return Err(bad(line, InputKind::Form));
            };
            match words.insert(key, good) {
                Ok(None) => {}
                Ok(Some(_)) => return Err(bad(line, InputKind::Repeated)),
                Err(_) => return Err(VerdictFault::Memory),
            }
            rest = behind;
            line += 1;
        }
        if more {
            return Err(VerdictFault::Large);
        }
        if !rest.is_empty() {
            return Err(bad(line, InputKind::Form));
        }
        Ok(VerdictFile { words })
    }
}

impl Verifier for VerdictFile {
    ghost use Rattle.sentinel.specs.Files.{file_verdict};

    ghost verdict_of = { file_verdict };

    fn verdict(&self, tx: &Hash, index: u64) -> Verdict {
        match self.words.get(&Key { tx: *tx, index }) {
            None => Verdict::Absent,
            Some(true) => Verdict::Good,
            Some(false) => Verdict::Bad,
        }
    }
}
