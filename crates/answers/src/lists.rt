// Questions of the list file.
use crate::write::Out;
use crate::{refusals, write};

// list FILE: valid C, or a refusal.
pub(crate) fn list(file: &[u8], out: &mut Out) {
    match licensee::check(file) {
        Ok(count) => {
            out.bytes(b"valid");
            write::number(out, count as u64);
        }
        Err(r) => refusals::refused(r, out),
    }
}

// entry INDEX FILE: part OFFSET BYTES, or empty. No body of a valid file is empty.
pub(crate) fn entry(i: u64, file: &[u8], out: &mut Out) {
    let body = licensee::entry(file, i as usize);
    if body.is_empty() {
        out.bytes(b"empty");
        return;
    }
    let place = licensee::place(file, i as usize);
    out.bytes(b"part");
    write::number(out, place.start as u64);
    write::hex(out, body);
}
