// Refusals: the number, a sentence, the place, and what was expected there.
use crate::write::Out;
use crate::{phrases, show, write};
use refusal::{Column, Refusal};

// refused N: and the sentence of that refusal, in a line that is not ended.
pub(crate) fn told(r: Refusal, out: &mut Out) {
    let n = u64::from(refusal::number(r));
    write::count(out, phrases::REFUSED, n, phrases::COLON);
    write::text(out, phrases::sentence(r));
}

// A refused text: the text with its place, the sentence, and what was expected there.
pub(crate) fn refused(s: &[u8], r: Refusal, out: &mut Out) {
    match refusal::last_column(r) {
        Column::Nothing => {
            told(r, out);
            write::line_end(out);
        }
        Column::Place(span) => {
            show::pointed(s, span, out);
            told(r, out);
            write::line_end(out);
        }
        Column::PlaceAndSet(span, e) => {
            show::pointed(s, span, out);
            told(r, out);
            write::line_end(out);
            write::text(out, phrases::EXPECTED);
            write::line(out, phrases::expected(e));
        }
        Column::Number(x) => {
            told(r, out);
            write::count(out, phrases::OPEN, x, phrases::CLOSE);
            write::line_end(out);
        }
    }
}
