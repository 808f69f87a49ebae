// Questions of the lower floors: UTF-8, white space and names.
use crate::write;
use crate::write::Out;

// utf8 TEXT: well, or ill P.
pub(crate) fn utf8(s: &[u8], out: &mut Out) {
    let p = utf8::first_ill(s);
    if p == s.len() {
        out.bytes(b"well");
    } else {
        out.bytes(b"ill");
        write::number(out, p as u64);
    }
}

// char PLACE TEXT: char CODE WIDTH white, char CODE WIDTH -, or none.
pub(crate) fn char(place: u64, s: &[u8], out: &mut Out) {
    let Some(c) = utf8::char_at(s, place as usize) else {
        out.bytes(b"none");
        return;
    };
    out.bytes(b"char");
    write::number(out, c.code as u64);
    write::number(out, c.width as u64);
    out.bytes(if utf8::is_white(c.code) {
        b" white"
    } else {
        b" -"
    });
}

// past PLACE TEXT: at P.
pub(crate) fn past(place: u64, s: &[u8], out: &mut Out) {
    out.bytes(b"at");
    write::number(out, utf8::past_white(s, place as usize) as u64);
}

// inside PLACE TEXT: yes, or no.
pub(crate) fn inside(place: u64, s: &[u8], out: &mut Out) {
    out.bytes(if utf8::inside(s, place as usize) {
        b"yes"
    } else {
        b"no"
    });
}

// The flags of the licence k: d where it is deprecated, g where it is a GNU name.
fn flags(k: usize, out: &mut Out) {
    out.bytes(match (names::deprecated(k), names::gnu(k)) {
        (true, true) => b" dg",
        (true, false) => b" d",
        (false, true) => b" g",
        (false, false) => b" -",
    });
}

// A licence's partner.
fn partner(f: Option<usize>, out: &mut Out) {
    match f {
        Some(k) => write::name(out, k),
        None => out.bytes(b" -"),
    }
}

fn listed(k: usize, out: &mut Out) {
    out.bytes(b"listed");
    write::name(out, k);
    flags(k, out);
    partner(names::later(k), out);
    partner(names::only(k), out);
}

// licence TEXT: listed NAME FLAGS LATER ONLY, or none.
pub(crate) fn licence(s: &[u8], out: &mut Out) {
    match names::licence(s) {
        Some(k) => listed(k, out),
        None => out.bytes(b"none"),
    }
}

// exception TEXT: listed NAME, or none.
pub(crate) fn exception(s: &[u8], out: &mut Out) {
    match names::exception(s) {
        Some(k) => {
            out.bytes(b"listed");
            write::exception(out, k);
        }
        None => out.bytes(b"none"),
    }
}

// imprecise TEXT: stands NAME LEN, or none.
pub(crate) fn imprecise(s: &[u8], out: &mut Out) {
    match names::imprecise(s, 0) {
        Some(x) => {
            out.bytes(b"stands");
            write::name(out, x.licence);
            write::number(out, x.len as u64);
        }
        None => out.bytes(b"none"),
    }
}
