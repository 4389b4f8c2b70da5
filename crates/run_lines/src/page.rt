// Lines that are written together.
ghost use Rattle.std.specs.Prelude.{◌≡◌, [], length, take, Some};

use arrayvec::ArrayVec;
use outside::{Failed, Sink};

/// Lines that wait to be written, in a fixed array. A piece finds no room where the page is full.
#[derive(Drop)]
pub(crate) struct Page {
    text: ArrayVec<u8, 8192>,
    refusals: u64,
}

impl Page {
    /// With no line.
    pub(crate) fn new() -> Page
        ensures { result.text.items ≡ [] }
    {
        Page {
            text: ArrayVec::new(),
            refusals: 0,
        }
    }

    /// How many bytes wait.
    pub(crate) fn len(&self) -> usize
        ensures { result ≡ length self.now.text.items }
    {
        self.text.len()
    }

    /// Keeps the first bytes alone.
    pub(crate) fn truncate(&mut self, len: usize)
        ensures { self.new.text.items ≡ take len self.old.text.items }
    {
        self.text.truncate(len);
    }

    /// What waits.
    pub(crate) fn lines(&self) -> &[u8]
        ensures { result.now ≡ self.now.text.items }
    {
        self.text.as_slice()
    }
}

impl Sink for Page {
    ghost taken = { λ p. Some p.text.items };

    ghost count = { λ p. p.refusals };

    fn write(&mut self, bytes: &[u8]) -> Result<usize, Failed> {
        let n = self.text.remaining_capacity().min(bytes.len());
        if n == 0 && !bytes.is_empty() {
            self.refusals = self.refusals.saturating_add(1);
            return Err(Failed);
        }
        let _ = self.text.try_extend_from_slice(&bytes[..n]);
        Ok(n)
    }
}
