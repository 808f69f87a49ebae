// The slip of an expression.
use crate::input::Asked;
use crate::stop::Stop;
use crate::write::Out;
use crate::{phrases, refusals, sets, show, tree, write};
use canonical::Answer;
use parser::Node;

// A text has at most 1,024 bytes, and its canonical text at most four times as many.
const LARGEST: usize = 4096;

// The canonical text, or why there is none: it is always LAX, and the mode may read more.
fn canonical(s: &[u8], out: &mut Out) {
    let mut lent = [0u8; LARGEST];
    write::text(out, phrases::CANONICAL);
    match canonical::canonical(s, &mut lent) {
        Ok(Answer::Unchanged) => write::text(out, phrases::AS_WRITTEN),
        Ok(Answer::Written(len)) => out.bytes(text::cut(&lent, 0, len)),
        Err(r) => {
            write::text(out, phrases::NONE);
            refusals::told(r, out);
        }
    }
    write::line_end(out);
}

// The expression, its canonical text and its tree.
fn head(s: &[u8], nodes: &[Node], out: &mut Out) {
    write::text(out, phrases::EXPRESSION);
    show::whole(s, out);
    write::line_end(out);
    canonical(s, out);
    tree::tree(s, nodes, out);
}

pub(crate) fn slip(rt: &HostRuntime, asked: &Asked<'_>, out: &mut Out) -> Result<(), Stop> {
    let parsed = parser::parse(asked.text, asked.mode)?;
    let count = parsed.count.min(parsed.nodes.len());
    head(asked.text, &parsed.nodes[..count], out);
    write::flush(rt, out)?;
    sets::all(rt, asked, out)
}
