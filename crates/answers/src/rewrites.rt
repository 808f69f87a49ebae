// Questions of the canonical text.
use crate::write::Out;
use crate::{refusals, write};
use canonical::Answer;

// The largest buffer that is lent.
const LARGEST: usize = 4096;

// What each byte of a buffer is before the call, so that one that was written can be told.
const FRESH: u8 = 0xAA;

// canonical SIZE TEXT: unchanged, written N or a refusal, and the lent bytes after the call. A SIZE over the largest is no question.
pub(crate) fn canonical(size: u64, s: &[u8], out: &mut Out) -> Option<()> {
    let mut buffer = [FRESH; LARGEST];
    let lent = buffer.get_mut(..size as usize)?;
    match canonical::canonical(s, lent) {
        Ok(Answer::Unchanged) => out.bytes(b"unchanged"),
        Ok(Answer::Written(len)) => {
            out.bytes(b"written");
            write::number(out, len as u64);
        }
        Err(r) => refusals::refused(r, out),
    }
    write::hex(out, lent);
    Some(())
}
