// A page that lines are written on.
ghost use Rattle.std.specs.Prelude.{◌≡◌, []};

use outside::{Failed, Sink};
use std::alloc::Global;

/// The text so far. It takes what memory has room for.
#[derive(Drop)]
pub struct Page {
    pub text: Vec<u8>,
    count: u64,
}

impl Page {
    /// An empty page.
    pub fn new(alloc: Global) -> Page
        ensures { result.text.items ≡ [] }
    {
        Page {
            text: Vec::new(alloc),
            count: 0,
        }
    }
}

impl Sink for Page {
    ghost use Rattle.std.specs.Prelude.{Some};

    ghost taken = { λ s. Some s.text.items };

    ghost count = { λ s. s.count };

    fn write(&mut self, bytes: &[u8]) -> Result<usize, Failed> {
        match self.text.extend_from_slice(bytes) {
            Ok(()) => Ok(bytes.len()),
            Err(_) => {
                self.count = self.count.saturating_add(1);
                Err(Failed)
            }
        }
    }
}
