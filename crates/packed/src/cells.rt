// Tokens and nodes as records of 16-bit cells.
ghost use Rattle.std.specs.Prelude.{◌≡◌, ◌+◌, ◌*◌, ◌≤◌, length};
ghost use Rattle.text.specs.Overlay.{overlay};
ghost use Rattle.packed.specs.Records.{cell, named_token, token_cells, reference_cells, licence_cells, addition_cells, leaf_cells, node_cells, records_of};

use grammar::{Addition, Leaf, Licence, Node, Part, Range};
use lexer::Token;
use refusal::Span;

// A place as a cell holds it.
#[tactic(auto, unfolding(crate::specs::Records::cell))]
fn cell_of(x: usize) -> u16
    ensures { result ≡ cell x }
{
    u16::try_from(x).unwrap_or(u16::MAX)
}

// A token of a kind that has a name, with a document part or with none.
fn named(kind: u16, doc: Option<Span>, name: Span, span: Span, next: usize) -> [u16; 10]
    ensures { result ≡ named_token kind doc name span next }
{
    let a = cell_of(name.start);
    let e = cell_of(name.end);
    let start = cell_of(span.start);
    let end = cell_of(span.end);
    let after = cell_of(next);
    match doc {
        None => [kind, 0, 0, 0, 0, a, e, start, end, after],
        Some(d) => [
            kind,
            0,
            1,
            cell_of(d.start),
            cell_of(d.end),
            a,
            e,
            start,
            end,
            after,
        ],
    }
}

// The ten cells of a token.
#[tactic(auto, unfolding(crate::specs::Records::cell))]
pub fn of_token(token: Token, span: Span, next: usize) -> [u16; 10]
    ensures { result ≡ token_cells token span next }
{
    let start = cell_of(span.start);
    let end = cell_of(span.end);
    let after = cell_of(next);
    match token {
        Token::And => [1, 0, 0, 0, 0, 0, 0, start, end, after],
        Token::Or => [2, 0, 0, 0, 0, 0, 0, start, end, after],
        Token::With => [3, 0, 0, 0, 0, 0, 0, start, end, after],
        Token::Plus => [4, 0, 0, 0, 0, 0, 0, start, end, after],
        Token::Open => [5, 0, 0, 0, 0, 0, 0, start, end, after],
        Token::Close => [6, 0, 0, 0, 0, 0, 0, start, end, after],
        Token::Licence(k) => [7, cell_of(k), 0, 0, 0, 0, 0, start, end, after],
        Token::Exception(k) => [8, cell_of(k), 0, 0, 0, 0, 0, start, end, after],
        Token::LicenseRef { doc, name } => named(9, doc, name, span, next),
        Token::AdditionRef { doc, name } => named(10, doc, name, span, next),
        Token::Unknown(name) => named(11, None, name, span, next),
    }
}

// A reference: its form without and with a document part, and the ranges.
fn of_reference(without: u16, with: u16, doc: Part, name: Range) -> [u16; 6]
    ensures { result ≡ reference_cells without with doc name }
{
    match doc {
        None => [without, 0, 0, 0, name.start, name.end],
        Some(d) => [with, 0, d.start, d.end, name.start, name.end],
    }
}

fn of_licence(x: Licence) -> [u16; 6]
    ensures { result ≡ licence_cells x }
{
    match x {
        Licence::Listed(k) => [0, k, 0, 0, 0, 0],
        Licence::Reference { doc, name } => of_reference(1, 2, doc, name),
    }
}

fn of_addition(x: Addition) -> [u16; 6]
    ensures { result ≡ addition_cells x }
{
    match x {
        Addition::Nothing => [0, 0, 0, 0, 0, 0],
        Addition::Listed(k) => [1, k, 0, 0, 0, 0],
        Addition::Reference { doc, name } => of_reference(2, 3, doc, name),
    }
}

fn of_leaf(l: Leaf) -> [u16; 16]
    ensures { result ≡ leaf_cells l }
{
    let licence = l.licence;
    let addition = l.addition;
    let span = l.span;
    let a = of_licence(licence);
    let x = of_addition(addition);
    let plus = l.plus as u16;
    [
        1, a[0], a[1], a[2], a[3], a[4], a[5], plus, x[0], x[1], x[2], x[3], x[4], x[5],
        span.start, span.end,
    ]
}

// The sixteen cells of a node.
pub fn of_node(node: Node) -> [u16; 16]
    ensures { result ≡ node_cells node }
{
    match node {
        Node::Blank => [0; 16],
        Node::Leaf(l) => of_leaf(l),
        Node::And => [2, 0, 0, 0, 0, 0, 0, 0, 0, 0, 0, 0, 0, 0, 0, 0],
        Node::Or => [3, 0, 0, 0, 0, 0, 0, 0, 0, 0, 0, 0, 0, 0, 0, 0],
    }
}

// Writes the cells of a node over those from a place on, where there is room.
fn put_node(node: Node, out: &mut [u16], at: usize)
    requires { at + 16 ≤ length out.old }
    ensures { out.new ≡ overlay at (node_cells node) out.old }
{
    let p = of_node(node);
    // cell by cell, so that each goes from its register: copied as a slice they would go through memory
    for i in 0..16 {
        out[at + i] = p[i];
    }
}

// Writes the cells of nodes over the first ones, where there is room.
pub fn put_nodes(nodes: &[Node], out: &mut [u16])
    requires { length nodes.now * 16 ≤ length out.old }
    ensures { out.new ≡ overlay 0 (records_of nodes.now) out.old }
{
    for (i, node) in nodes.iter().enumerate() {
        put_node(*node, out, i * 16);
    }
}
