// Answers, written one after the other. A field is put with the space before it.
use itoa::Buffer;
use names::table::{LICENCES, NAMES};
use refusal::Span;

// Twice as much as the longest answer takes: when an answer starts, half of it is free.
pub(crate) const ROOM: usize = 131072;

pub(crate) type Out = out::Out<ROOM>;

const DIGITS: &[u8; 16] = b"0123456789abcdef";

fn decimal(out: &mut Out, x: u64) {
    let mut digits = Buffer::new();
    out.bytes(digits.format(x).as_bytes());
}

pub(crate) fn number(out: &mut Out, x: u64) {
    out.byte(b' ');
    decimal(out, x);
}

pub(crate) fn range(out: &mut Out, span: Span) {
    number(out, span.start as u64);
    out.bytes(b"..");
    decimal(out, span.end as u64);
}

// Puts the name k of the table.
pub(crate) fn name(out: &mut Out, k: usize) {
    out.byte(b' ');
    for i in 0..names::name_len(k) {
        out.byte(names::name_byte(k, i));
    }
}

// Puts the name of the exception k: in the table the exceptions stand after the licences.
pub(crate) fn exception(out: &mut Out, k: usize) {
    if k < NAMES {
        name(out, LICENCES + k);
    } else {
        out.byte(b' ');
    }
}

// Puts bytes as hex digits, `-` where there are none.
pub(crate) fn hex(out: &mut Out, s: &[u8]) {
    out.byte(b' ');
    if s.is_empty() {
        out.byte(b'-');
    }
    for b in s {
        out.byte(DIGITS[(b / 16) as usize]);
        out.byte(DIGITS[(b % 16) as usize]);
    }
}
