// What is written besides plain bytes: phrases, numbers and names.
use itoa::Buffer;
use names::table::{LICENCES, NAMES};
use std::io;

// More than a text of the greatest length takes when each of its bytes is shown by three.
const ROOM: usize = 262144;

pub(crate) type Out = out::Out<ROOM>;

pub(crate) fn text(out: &mut Out, phrase: &str) {
    out.bytes(phrase.as_bytes());
}

// A phrase that ends its line.
pub(crate) fn line(out: &mut Out, phrase: &str) {
    text(out, phrase);
    line_end(out);
}

pub(crate) fn line_end(out: &mut Out) {
    out.byte(b'\n');
}

pub(crate) fn decimal(out: &mut Out, x: u64) {
    let mut digits = Buffer::new();
    text(out, digits.format(x));
}

// A number between two phrases.
pub(crate) fn count(out: &mut Out, before: &str, x: u64, behind: &str) {
    text(out, before);
    decimal(out, x);
    text(out, behind);
}

// A number with the phrase for one or for many.
pub(crate) fn plural(out: &mut Out, x: u64, one: &str, many: &str) {
    decimal(out, x);
    text(out, if x == 1 { one } else { many });
}

// The name k of the table.
pub(crate) fn name(out: &mut Out, k: usize) {
    for i in 0..names::name_len(k) {
        out.byte(names::name_byte(k, i));
    }
}

// The name of the exception k: in the table the exceptions stand after the licences.
pub(crate) fn exception(out: &mut Out, k: usize) {
    if k < NAMES {
        name(out, LICENCES + k);
    }
}

// Writes what waits to a stream.
pub(crate) fn flush(to: &impl Print, out: &mut Out) -> io::Result<()> {
    to.write_all(out.written())?;
    out.clear();
    Ok(())
}
