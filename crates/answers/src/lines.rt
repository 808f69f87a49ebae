// Lines: the input comes in chunks, and a line is answered where it ends.
use crate::questions;
use crate::questions::Texts;
use crate::write::{Out, ROOM};
use std::io;
use std::io::Read;

// A line that fills this is too long.
const TOO_LONG: usize = 65536;

// As much of the input as is taken in at a time.
const CHUNK: usize = 65536;

// What goes from byte to byte: the line as far as it is read, where the texts of a question are put, and the answers that wait.
#[derive(Drop)]
struct Lines {
    line: out::Out<TOO_LONG>,
    texts: Texts,
    answers: Out,
}

impl Lines {
    // Writes what waits, and then nothing does.
    fn flush(&mut self, rt: &impl Print) -> io::Result<()> {
        rt.write_all(self.answers.written())?;
        self.answers.clear();
        Ok(())
    }

    // Answers the line that is held, `?` where it is no question.
    fn answer(&mut self) {
        let answered = if self.line.len() < TOO_LONG {
            questions::answer(self.line.written(), &mut self.texts, &mut self.answers)
        } else {
            None
        };
        if answered.is_none() {
            self.answers.byte(b'?');
        }
    }

    // Ends the line that is held. What waits is written from half of the room on, so that the next answer has room.
    fn end(&mut self, rt: &impl Print) -> io::Result<()> {
        self.answer();
        self.answers.byte(b'\n');
        self.line.clear();
        if self.answers.len() > ROOM / 2 {
            self.flush(rt)?;
        }
        Ok(())
    }

    // Takes in a chunk, and writes what was answered. A line ends in front of each part of the chunk but the first.
    fn take_all(&mut self, rt: &impl Print, chunk: &[u8]) -> io::Result<()> {
        for (i, part) in chunk.split(|b| *b == b'\n').enumerate() {
            if 0 < i {
                self.end(rt)?;
            }
            self.line.bytes(part);
        }
        self.flush(rt)
    }
}

// Answers the whole input. A proved loop has to end, and nothing says that the input does: no run uses up the turns.
pub(crate) fn serve(rt: &HostRuntime) -> io::Result<()> {
    let mut input = rt.stdin();
    let mut chunk = [0u8; CHUNK];
    let mut lines = Lines {
        line: out::Out::new(),
        texts: Texts {
            text: out::Out::new(),
            file: out::Out::new(),
        },
        answers: out::Out::new(),
    };
    for _ in 0..u64::MAX {
        let n = input.read(&mut chunk)?;
        if n == 0 {
            break;
        }
        lines.take_all(rt, &chunk[..n])?;
    }
    // The last line may have no end.
    if lines.line.len() > 0 {
        lines.end(rt)?;
        lines.flush(rt)?;
    }
    Ok(())
}
