// What the readers answer, and what they tell tokens apart by. The definitions of reading are in specs/.
#![tactic(auto)]

use refusal::Refusal;

// A range of a text's bytes, as a leaf holds it.
#[derive(Clone, Copy)]
pub struct Range {
    pub start: u16,
    pub end: u16,
}

// The document part of a reference, if it has one.
pub type Part = Option<Range>;

// A listed name's place among the licences, or the ranges of a reference's names.
#[derive(Clone, Copy)]
pub enum Licence {
    Listed(u16),
    Reference { doc: Part, name: Range },
}

// A listed exception's place, or the ranges of a reference's names.
#[derive(Clone, Copy)]
pub enum Addition {
    Nothing,
    Listed(u16),
    Reference { doc: Part, name: Range },
}

// One licence, with its `+` and its addition. The span is that of the licence token alone.
#[derive(Clone, Copy)]
pub struct Leaf {
    pub licence: Licence,
    pub plus: bool,
    pub addition: Addition,
    pub span: Range,
}

#[derive(Clone, Copy)]
pub enum Node {
    Blank,
    Leaf(Leaf),
    And,
    Or,
}

// The nodes in postfix; those past the count are blank.
#[derive(Clone, Copy)]
pub struct Nodes {
    pub count: usize,
    pub nodes: [Node; 127],
}

// What a reader answers. A refusal gives no node.
pub type Parsed = Result<Nodes, Refusal>;

// The token before, as far as it decides what may follow.
#[derive(Clone, Copy)]
pub enum Before {
    // no token
    Nothing,
    // AND, OR or `(`
    Joint,
    // a listed name
    Listed(usize),
    // an unknown term, as a licence or as an addition
    Term,
    // a LicenseRef or `+`
    Suffixed,
    // WITH
    With,
    // an exception or an AdditionRef
    Added,
    // `)`
    Closed,
}

// What a token is where a licence may stand.
#[derive(Clone, Copy)]
pub enum Start {
    // it begins this leaf
    Begins(Leaf, Before),
    // a deprecated name that the mode does not allow
    Barred,
    Opens,
    Unfit,
}

// What a token is behind the tokens of a leaf: one more of them, with which the leaf is now this, or none of them, so that the leaf has ended.
pub type Move = Result<Option<(Leaf, Before)>, Refusal>;

// What a token is where an operand has ended.
#[derive(Clone, Copy)]
pub enum Link {
    And,
    Or,
    Close,
    Other,
}
