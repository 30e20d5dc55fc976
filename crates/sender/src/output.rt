// What sender writes.
use std::fmt;
use std::fmt::Write;

// The open file that a program writes to.
const STDOUT_FILENO: i32 = 1;

// Kept: in replay and in sender, since no library reads or writes.
#[derive(Drop)]
struct Output;

impl fmt::Write for Output {
    fn write_str(&mut self, text: &str) -> fmt::Result {
        write_bytes(text.as_bytes());
        Ok(())
    }
}

// Nobody could be told of a line that cannot be written.
pub(crate) fn write_line<D: fmt::Display + Drop>(line: D) {
    let _ = Output.writeln(line);
}

pub(crate) fn write_bytes(bytes: &[u8]) {
    io::write_all(STDOUT_FILENO, bytes);
}
