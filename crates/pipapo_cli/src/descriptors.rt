//! The standard descriptors, some of which the caller may have closed.
use std::alloc::Global;
use std::fs::{self, OpenOptions};
use std::io;
use std::rt::Files;

/// The standard input, output and error, as Linux names what a process has open.
const STANDARD: [&str; 3] = ["/proc/self/fd/0", "/proc/self/fd/1", "/proc/self/fd/2"];

/// A file that takes the place of a closed descriptor, and that can't be used in its direction. In the place
/// of the input it is open for writing alone, and in the place of an output for reading alone. So each call
/// on it fails, as on a closed descriptor.
fn stand_in<R: Files>(rt: &R, is_input: bool) -> io::Result<R::File> {
    let mut options = OpenOptions::new();
    options.read(!is_input).write(is_input);
    options.open(rt, "/dev/null")
}

/// Opens a file in the place of each standard descriptor that is closed, lowest first, for as long as the result is
/// kept. A file that is opened gets the lowest free number. Without this, the first file of a command would become
/// the standard input of a program that was started without one.
pub fn fill_closed<R: Files>(rt: &R, alloc: Global) -> Vec<R::File> {
    let mut files = Vec::new(alloc);
    for (number, name) in STANDARD.iter().enumerate() {
        if let Ok(false) = fs::exists(rt, *name) {
            if let Ok(file) = stand_in(rt, number == 0) {
                let _ = files.push(file);
            }
        }
    }
    files
}
