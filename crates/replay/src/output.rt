// The lines that replay writes.
use delivery::Answer;
use session::Session;
use std::fmt;
use std::fmt::Write;

// The open file that a program writes to.
const STDOUT_FILENO: i32 = 1;

// Kept: in replay and in sender, since no library reads or writes.
#[derive(Drop)]
struct Output;

impl fmt::Write for Output {
    fn write_str(&mut self, text: &str) -> fmt::Result {
        write_text(text);
        Ok(())
    }
}

// In one write.
pub(crate) fn write_text(text: &str) {
    io::write_all(STDOUT_FILENO, text.as_bytes());
}

// Nobody could be told of a line that cannot be written.
pub(crate) fn write_line<D: fmt::Display + Drop>(line: D) {
    let _ = Output.writeln(line);
}

pub(crate) fn write_answer(answer: Answer) {
    match answer {
        Answer::Taken => write_text("taken\n"),
        Answer::Held => write_text("held\n"),
        Answer::Refused(kind, block, byte) => write_line(format_args!(
            "refused {kind} {block} {byte}"
        )),
    }
}

pub(crate) fn write_session(s: Session) {
    write_line(format_args!(
        "session {} {} {} {} {} {} {}",
        s.taken, s.closed, s.posts, s.filled, s.low, s.high, s.sum
    ));
}

pub(crate) fn write_cells(grid: &[i32]) {
    write_line(format_args!("cells {}", grid.len()));
    for z in grid {
        write_line(*z);
    }
}
