// The lines that rows write to the real output.
use host_devices::StdoutSink;
use outside::Sink;
use std::io;

/// The output, and the rows that were told.
#[derive(Drop)]
pub struct Lines<'r> {
    out: StdoutSink<&'r HostRuntime>,
    told: u32,
    held: u32,
}

impl<'r> Lines<'r> {
    pub fn new(rt: &'r HostRuntime) -> Lines<'r> {
        Lines {
            out: StdoutSink::new(rt),
            told: 0,
            held: 0,
        }
    }

    // Writes a text. The answer is whether all of it was written.
    fn write(&mut self, text: &str) -> bool {
        let bytes = text.as_bytes();
        self.out.write(bytes).ok() == Some(bytes.len())
    }

    /// Writes whether a row came to what it should, and counts it.
    pub fn tell(&mut self, row: &str, held: bool) {
        self.told = self.told.saturating_add(1);
        let word = if held { "ok " } else { "NOT " };
        let told = self.write(word) && self.write(row) && self.write("\n");
        if held && told {
            self.held = self.held.saturating_add(1);
        }
    }

    /// Writes how many came to what they should. The answer is whether all did.
    pub fn end<R: Print>(&self, rt: &R) -> io::Result<bool> {
        println!(rt;
            "{} of {} rows came to what they should",
            self.held, self.told
        )?;
        Ok(self.held == self.told)
    }
}
