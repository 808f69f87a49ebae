// Refusals: the number, and what the last column of its row says.
use crate::write;
use crate::write::Out;
use refusal::{Column, Refusal};

// The members of a set for 6, in the order of their bits.
const MEMBERS: [&[u8]; 8] = [
    b"licence",
    b"(",
    b"AND",
    b"OR",
    b"WITH",
    b")",
    b"+",
    b"addition",
];

// The members of a set: a space stands before the first, and a comma before each other.
fn set(out: &mut Out, bits: u8) {
    let mut before = b' ';
    for (k, member) in MEMBERS.iter().enumerate() {
        if bits >> k & 1 == 1 {
            out.byte(before);
            out.bytes(member);
            before = b',';
        }
    }
}

// refused N, and a place, a place and a set, a number or nothing.
pub(crate) fn refused(r: Refusal, out: &mut Out) {
    out.bytes(b"refused");
    write::number(out, refusal::number(r) as u64);
    match refusal::last_column(r) {
        Column::Nothing => {}
        Column::Place(span) => write::range(out, span),
        Column::PlaceAndSet(span, e) => {
            write::range(out, span);
            set(out, refusal::set(e));
        }
        Column::Number(x) => write::number(out, x),
    }
}
