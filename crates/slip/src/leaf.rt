// A licence of the tree, with its `+` and its addition.
use crate::write::Out;
use crate::{phrases, write};
use parser::{Addition, Leaf, Licence, Range};

// The listed name, or the reference as it is written.
fn licence(x: Licence, written: &[u8], out: &mut Out) {
    match x {
        Licence::Listed(k) => write::name(out, k as usize),
        Licence::Reference { .. } => out.bytes(written),
    }
}

fn plus(stands: bool, out: &mut Out) {
    if stands {
        out.byte(b'+');
    }
}

// Where a reference begins whose prefix ends here; an unknown term has none.
fn begin(s: &[u8], prefix: &[u8], at: usize) -> usize {
    match text::cut(s, 0, at).strip_suffix(prefix) {
        Some(before) => before.len(),
        None => at,
    }
}

// Where the text of an addition begins that is no listed one.
fn addition_begin(s: &[u8], doc: Option<Range>, name: Range) -> usize {
    match doc {
        None => begin(s, b"AdditionRef-", name.start as usize),
        Some(r) => begin(s, b"DocumentRef-", r.start as usize),
    }
}

fn addition(s: &[u8], x: Addition, out: &mut Out) {
    match x {
        Addition::Nothing => (),
        Addition::Listed(k) => {
            write::text(out, phrases::WITH);
            write::exception(out, k as usize);
        }
        Addition::Reference { doc, name } => {
            write::text(out, phrases::WITH);
            let from = addition_begin(s, doc, name);
            out.bytes(text::cut(s, from, name.end as usize));
        }
    }
}

// A name that is written in another way in the text is followed by that.
pub(crate) fn drawn(s: &[u8], l: Leaf, out: &mut Out) {
    let from = l.span.start as usize;
    let to = l.span.end as usize;
    let written = text::cut(s, from, to);
    let begin = out.len();
    licence(l.licence, written, out);
    let same = text::cut(out.written(), begin, out.len()) == written;
    plus(l.plus, out);
    addition(s, l.addition, out);
    if !same {
        write::text(out, phrases::WRITTEN);
        out.bytes(written);
        plus(text::byte(s, to) == b'+', out);
        out.byte(b')');
    }
}
