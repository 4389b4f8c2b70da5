// The descriptors of standard input, output and error.
use std::fs::File;
use std::os::fd::AsRawFd;
use std::rt::Files;

/// The descriptors 0, 1 and 2, as far as a program began with them closed. As long as this is kept no other file gets one of these numbers, so nothing
/// that is printed can come into a file of the rack.
#[derive(Drop)]
pub struct StandardFiles {
    first: Option<File>,
    second: Option<File>,
    third: Option<File>,
}

// The null device, where it takes the place of a standard descriptor: the system gives a file the least number that is free. It can only be read, so
// what is printed there fails.
fn standard_file<R: Files<File = File>>(rt: &R) -> Option<File> {
    match File::open(rt, "/dev/null") {
        Ok(file) if file.as_raw_fd() <= 2 => Some(file),
        _ => None,
    }
}

impl StandardFiles {
    /// Opens the null device in place of each standard descriptor that is closed.
    pub fn keep<R: Files<File = File>>(rt: &R) -> StandardFiles {
        StandardFiles {
            first: standard_file(rt),
            second: standard_file(rt),
            third: standard_file(rt),
        }
    }
}
