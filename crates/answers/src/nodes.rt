// Questions of the parser.
use crate::write::Out;
use crate::{refusals, write};
use parser::{Addition, Leaf, Licence, Mode, Node, Range};
use refusal::Span;

fn range(r: Range, out: &mut Out) {
    let span = Span {
        start: r.start as usize,
        end: r.end as usize,
    };
    write::range(out, span);
}

fn reference(doc: Option<Range>, name: Range, out: &mut Out) {
    out.bytes(b" ref");
    match doc {
        None => out.bytes(b" -"),
        Some(r) => range(r, out),
    }
    range(name, out);
}

fn licence_of(x: Licence, out: &mut Out) {
    match x {
        Licence::Listed(k) => {
            out.bytes(b" listed");
            write::name(out, k as usize);
        }
        Licence::Reference { doc, name } => reference(doc, name, out),
    }
}

fn addition_of(x: Addition, out: &mut Out) {
    match x {
        Addition::Nothing => out.bytes(b" none"),
        Addition::Listed(k) => {
            out.bytes(b" listed");
            write::exception(out, k as usize);
        }
        Addition::Reference { doc, name } => reference(doc, name, out),
    }
}

fn leaf_of(l: Leaf, out: &mut Out) {
    out.bytes(b" | leaf");
    licence_of(l.licence, out);
    out.bytes(if l.plus { b" +" } else { b" -" });
    addition_of(l.addition, out);
    range(l.span, out);
}

// A node, with the bar before it. A blank is nothing: none stands before the count, and whatever else stands behind it would be seen.
fn node_of(x: Node, out: &mut Out) {
    match x {
        Node::Blank => {}
        Node::Leaf(l) => leaf_of(l, out),
        Node::And => out.bytes(b" | AND"),
        Node::Or => out.bytes(b" | OR"),
    }
}

// parse MODE TEXT: read N and the nodes, or a refusal.
pub(crate) fn parse(mode: Mode, s: &[u8], out: &mut Out) {
    match parser::parse(s, mode) {
        Ok(p) => {
            out.bytes(b"read");
            write::number(out, p.count as u64);
            for x in p.nodes {
                node_of(x, out);
            }
        }
        Err(r) => refusals::refused(r, out),
    }
}
