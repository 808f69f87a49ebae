// Questions of the choice and of the listing.
use crate::write::Out;
use crate::{refusals, write};
use minimize::{Choice, Listing};
use mode::Mode;

// A word and a number.
fn told(word: &[u8], x: u64, out: &mut Out) {
    out.bytes(word);
    write::number(out, x);
}

// choice MODE BUDGET TEXT FILE: mask M, paused P, or a refusal.
pub(crate) fn choice(mode: Mode, budget: u64, s: &[u8], file: &[u8], out: &mut Out) {
    match minimize::choice(s, mode, file, budget) {
        Ok(Choice::Mask(m)) => told(b"mask", m, out),
        Ok(Choice::Paused(p)) => told(b"paused", p, out),
        Err(r) => refusals::refused(r, out),
    }
}

// listing MODE CURSOR BUDGET TEXT FILE: found M next P, paused P, finished P, or a refusal.
pub(crate) fn listing(mode: Mode, cursor: u64, budget: u64, s: &[u8], file: &[u8], out: &mut Out) {
    match minimize::listing(s, mode, file, cursor, budget) {
        Ok(Listing::Found { mask, next }) => {
            told(b"found", mask, out);
            told(b" next", next, out);
        }
        Ok(Listing::Paused(p)) => told(b"paused", p, out),
        Ok(Listing::Finished(p)) => told(b"finished", p, out),
        Err(r) => refusals::refused(r, out),
    }
}
