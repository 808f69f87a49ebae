// From tokens to nodes: the stack reader, a token at a time.
#![tactic(auto)]

ghost use Rattle.std.specs.Prelude.{◌≡◌, ◌<◌, length, replicate, Some, Ok, Err};
ghost use Rattle.refusal.specs.Refused.{span};
ghost use Rattle.lexer.specs.Lex.{check_of};
ghost use Rattle.lexer.specs.Tokens.{tokens_of};
ghost use Rattle.grammar.specs.declared.Before.TheVariants.{Added};
ghost use Rattle.grammar.specs.declared.Start.TheVariants.{Begins};
ghost use Rattle.grammar.specs.Leaves.{range_of, part_of, ref_leaf, with_listed, with_ref, expected_after, takes_with, is_with, name_start, start_of, later_move, with_after, gnu_move, plus_move, plus_after, tail_move, add_move, move_of};
ghost use Rattle.grammar.specs.Grammar.{unexpected, link_of, blank, read, parse_of, answer_of};
ghost use Rattle.parser.specs.Turn.{Small, SmallPart, SmallToken, SmallFound, SmallStep, is_expecting, rank_by, rank_after, rank_of, level, pops_of, kind_of, leaf_action, open_action, start_action, push_action, close_action, link_action, move_action, token_action, finish_action, end_action, turn_of, with_nodes, told_count, left_nodes};

pub use grammar::{Addition, Leaf, Licence, Node, Nodes, Parsed, Part, Range};
use grammar::{Before, Link, Move, Start};
use lexer::{Got, Token};
pub use mode::Mode;
use refusal::{Expected, Refusal, Span};

// The small state of the stack reader; the stack and the nodes stand beside it in arrays.
#[derive(Clone, Copy)]
pub struct State {
    pub at: usize,
    pub sp: usize,
    pub count: usize,
    pub leaves: usize,
    pub opens: usize,
    pub before: Before,
}

// What stands on the stack: its bottom, an operator that waits for its right side, the place of an open parenthesis.
#[derive(Clone, Copy)]
pub enum Frame {
    Bottom,
    And,
    Or,
    Open(u16),
}

// Which operators on the stack a token ends.
#[derive(Clone, Copy)]
pub enum Ends {
    Nothing,
    Ands,
    All,
}

// What one turn does to the arrays, and the state after it.
#[derive(Clone, Copy)]
pub enum Action {
    // the last leaf is this
    Put(Leaf, State),
    // an operator or an open parenthesis goes on the stack
    Push(Frame, State),
    Go(State),
    Done,
}

type Turn = Result<Action, Refusal>;

// Places and indexes are stored in 16 bits: a text has at most 1,024 bytes.
fn narrow(n: usize) -> u16
    requires { n < 65536 }
    ensures { result ≡ n }
{
    n as u16
}

fn range_of(sp: Span) -> Range
    requires { Small sp }
    ensures { result ≡ range_of sp }
{
    Range {
        start: narrow(sp.start),
        end: narrow(sp.end),
    }
}

fn part_of(d: Option<Span>) -> Part
    requires { SmallPart d }
    ensures { result ≡ part_of d }
{
    d.map(|sp| range_of(sp))
}

// The set for 6, by the token before.
fn expected(b: Before) -> Expected
    ensures { result ≡ expected_after b }
{
    match b {
        Before::Nothing | Before::Joint => Expected::Term,
        Before::Listed(_) | Before::Term => Expected::Name,
        Before::Suffixed => Expected::Suffixed,
        Before::With => Expected::Addition,
        Before::Added => Expected::Tail,
        Before::Closed => Expected::Joint,
    }
}

// May WITH follow?
fn takes_with(b: Before) -> bool
    ensures { result ≡ takes_with b }
{
    matches!(b, Before::Listed(_) | Before::Term | Before::Suffixed)
}

// A listed name where a licence may stand.
#[tactic(auto, unfolding(grammar::specs::Leaves::name_start))]
fn named(m: Mode, k: usize, sp: Span) -> Start
    requires { (k < 65536) × Small sp }
    ensures { result ≡ name_start m k sp }
{
    if names::deprecated(k) & !m.deprecated {
        return Start::Barred;
    }
    let leaf = Leaf {
        licence: Licence::Listed(narrow(k)),
        plus: false,
        addition: Addition::Nothing,
        span: range_of(sp),
    };
    Start::Begins(leaf, Before::Listed(k))
}

// A reference where a licence may stand.
fn referred(d: Option<Span>, n: Span, sp: Span, b: Before) -> Start
    requires { SmallPart d × Small n × Small sp }
    ensures { result ≡ Begins (ref_leaf d n sp) b }
{
    let leaf = Leaf {
        licence: Licence::Reference {
            doc: part_of(d),
            name: range_of(n),
        },
        plus: false,
        addition: Addition::Nothing,
        span: range_of(sp),
    };
    Start::Begins(leaf, b)
}

// A token where a licence may stand.
fn start_of(m: Mode, token: Token, sp: Span) -> Start
    requires { SmallToken token × Small sp }
    ensures { result ≡ start_of m token sp }
{
    match token {
        Token::Open => Start::Opens,
        Token::Licence(k) => named(m, k, sp),
        Token::LicenseRef { doc, name } => referred(doc, name, sp, Before::Suffixed),
        Token::Unknown(n) => referred(None, n, sp, Before::Term),
        _ => Start::Unfit,
    }
}

// A GNU name becomes its "-or-later" name, if there is one.
fn later(leaf: Leaf, sp: Span, f: Option<usize>) -> Move
    requires { SmallFound f }
    ensures { result ≡ later_move leaf sp f }
{
    match f {
        Some(j) => {
            let licence = Licence::Listed(narrow(j));
            Ok(Some((Leaf { licence, ..leaf }, Before::Suffixed)))
        }
        None => Err(Refusal::UnknownLicense(sp)),
    }
}

// A `+` behind the GNU name k.
#[tactic(auto, using(crate::specs::TurnLaws::later_small), unfolding(grammar::specs::Leaves::gnu_move))]
fn gnu_plus(m: Mode, leaf: Leaf, k: usize, sp: Span) -> Move
    ensures { result ≡ gnu_move m leaf k sp }
{
    if !m.gnu_plus {
        return Err(Refusal::GnuNoPlus(sp));
    }
    if names::is_later(k) {
        return Err(Refusal::GnuPlusWithSuffix(sp));
    }
    later(leaf, sp, names::later(k))
}

// A `+` behind the listed name k.
#[tactic(auto, unfolding(grammar::specs::Leaves::plus_move))]
fn plus(m: Mode, leaf: Leaf, k: usize, sp: Span) -> Move
    ensures { result ≡ plus_move m leaf k sp }
{
    if names::gnu(k) {
        return gnu_plus(m, leaf, k, sp);
    }
    Ok(Some((Leaf { plus: true, ..leaf }, Before::Suffixed)))
}

// A `+`, which only a listed name takes.
fn plus_after(m: Mode, b: Before, leaf: Leaf, sp: Span) -> Move
    ensures { result ≡ plus_after m b leaf sp }
{
    match b {
        Before::Listed(k) => plus(m, leaf, k, sp),
        _ => Ok(None),
    }
}

// A WITH behind what takes one.
fn with_after(b: Before, leaf: Leaf) -> Move
    ensures { result ≡ with_after b leaf }
{
    if takes_with(b) {
        Ok(Some((leaf, Before::With)))
    } else {
        Ok(None)
    }
}

// A token that may be a leaf's `+` or WITH.
fn tail(m: Mode, b: Before, leaf: Leaf, token: Token, sp: Span) -> Move
    ensures { result ≡ tail_move m b leaf token sp }
{
    match token {
        Token::With => with_after(b, leaf),
        Token::Plus => plus_after(m, b, leaf, sp),
        _ => Ok(None),
    }
}

// The leaf with a reference as its addition.
fn add_ref(leaf: Leaf, d: Option<Span>, n: Span, b: Before) -> Move
    requires { SmallPart d × Small n }
    ensures { result ≡ Ok (Some (with_ref leaf d n, b)) }
{
    let doc = part_of(d);
    let name = range_of(n);
    let addition = Addition::Reference { doc, name };
    Ok(Some((Leaf { addition, ..leaf }, b)))
}

// The leaf with a listed exception as its addition.
fn add_listed(leaf: Leaf, k: usize) -> Move
    requires { k < 65536 }
    ensures { result ≡ Ok (Some (with_listed leaf k, Added)) }
{
    let addition = Addition::Listed(narrow(k));
    Ok(Some((Leaf { addition, ..leaf }, Before::Added)))
}

// A token behind WITH.
fn add(leaf: Leaf, token: Token, sp: Span) -> Move
    requires { SmallToken token }
    ensures { result ≡ add_move leaf token sp }
{
    match token {
        Token::Exception(k) => add_listed(leaf, k),
        Token::AdditionRef { doc, name } => add_ref(leaf, doc, name, Before::Added),
        Token::Unknown(n) => add_ref(leaf, None, n, Before::Term),
        _ => Err(Refusal::Unexpected(sp, Expected::Addition)),
    }
}

// Is an addition expected?
fn is_with(b: Before) -> bool
    ensures { result ≡ is_with b }
{
    matches!(b, Before::With)
}

// A token behind a leaf's tokens.
#[tactic(auto, unfolding(grammar::specs::Leaves::move_of))]
fn behind(m: Mode, b: Before, leaf: Leaf, token: Token, sp: Span) -> Move
    requires { SmallToken token }
    ensures { result ≡ move_of m b leaf token sp }
{
    if is_with(b) {
        add(leaf, token, sp)
    } else {
        tail(m, b, leaf, token, sp)
    }
}

// A token where an operand has ended.
fn link_of(token: Token) -> Link
    ensures { result ≡ link_of token }
{
    match token {
        Token::And => Link::And,
        Token::Or => Link::Or,
        Token::Close => Link::Close,
        _ => Link::Other,
    }
}

// Is an operand expected?
fn is_expecting(b: Before) -> bool
    ensures { result ≡ is_expecting b }
{
    matches!(b, Before::Nothing | Before::Joint)
}

// A leaf begins.
#[tactic(auto, unfolding(crate::specs::Turn::leaf_action))]
fn put(l: Leaf, b: Before, sp: Span, st: State) -> Turn
    requires { st.count < 1000 }
    ensures { result ≡ leaf_action l b sp st }
{
    if st.leaves < 64 {
        let next = State {
            at: sp.end,
            count: st.count + 1,
            leaves: st.leaves + 1,
            before: b,
            ..st
        };
        Ok(Action::Put(l, next))
    } else {
        Err(Refusal::TooManyLeaves(sp))
    }
}

// A parenthesis opens.
#[tactic(auto, unfolding(crate::specs::Turn::open_action))]
fn open(sp: Span, st: State) -> Turn
    requires { (st.sp < 1000) × Small sp }
    ensures { result ≡ open_action sp st }
{
    if st.opens < 32 {
        let next = State {
            at: sp.end,
            sp: st.sp + 1,
            opens: st.opens + 1,
            before: Before::Joint,
            ..st
        };
        Ok(Action::Push(Frame::Open(narrow(sp.start)), next))
    } else {
        Err(Refusal::TooDeep(sp))
    }
}

// A token where an operand is expected.
fn on_start(x: Start, sp: Span, st: State) -> Turn
    requires { (st.sp < 1000) × (st.count < 1000) × Small sp }
    ensures { result ≡ start_action x sp st }
{
    match x {
        Start::Begins(l, b) => put(l, b, sp, st),
        Start::Barred => Err(Refusal::DeprecatedLicenseId(sp)),
        Start::Opens => open(sp, st),
        Start::Unfit => Err(Refusal::Unexpected(sp, Expected::Term)),
    }
}

// An operator goes on the stack.
fn push(frame: Frame, sp: Span, st: State) -> Turn
    requires { st.sp < 1000 }
    ensures { result ≡ push_action frame sp st }
{
    let next = State {
        at: sp.end,
        sp: st.sp + 1,
        before: Before::Joint,
        ..st
    };
    Ok(Action::Push(frame, next))
}

// A `)`, with the frame on top.
fn shut(sp: Span, st: State, top: Frame) -> Turn
    ensures { result ≡ close_action sp st top }
{
    match top {
        Frame::Open(_) => Ok(Action::Go(State {
            at: sp.end,
            sp: st.sp.saturating_sub(1),
            opens: st.opens.saturating_sub(1),
            before: Before::Closed,
            ..st
        })),
        _ => Err(Refusal::UnopenedParens(sp)),
    }
}

// Such a token, with the frame on top.
fn on_link(k: Link, sp: Span, st: State, top: Frame) -> Turn
    requires { st.sp < 1000 }
    ensures { result ≡ link_action k sp st top }
{
    match k {
        Link::And => push(Frame::And, sp, st),
        Link::Or => push(Frame::Or, sp, st),
        Link::Close => shut(sp, st, top),
        Link::Other => Err(Refusal::Unexpected(sp, expected(st.before))),
    }
}

// A token behind a leaf or a `)`: one more of the leaf's, or none.
fn on_move(x: Option<(Leaf, Before)>, token: Token, sp: Span, st: State, top: Frame) -> Turn
    requires { st.sp < 1000 }
    ensures { result ≡ move_action (Ok x) token sp st top }
{
    match x {
        Some((l, before)) => {
            let next = State {
                at: sp.end,
                before,
                ..st
            };
            Ok(Action::Put(l, next))
        }
        None => on_link(link_of(token), sp, st, top),
    }
}

// A token, wherever it stands.
#[tactic(auto, unfolding(crate::specs::Turn::token_action))]
fn on_token(m: Mode, token: Token, sp: Span, leaf: Leaf, st: State, top: Frame) -> Turn
    requires { SmallToken token × Small sp × (st.sp < 1000) × (st.count < 1000) }
    ensures { result ≡ token_action m token sp leaf st top }
{
    if is_expecting(st.before) {
        on_start(start_of(m, token, sp), sp, st)
    } else {
        on_move(behind(m, st.before, leaf, token, sp)?, token, sp, st, top)
    }
}

// The end of the text, where an operand has ended.
fn finish(top: Frame) -> Turn
    ensures { result ≡ finish_action top }
{
    match top {
        Frame::Open(place) => {
            let start = place as usize;
            let end = start + 1;
            Err(Refusal::UnclosedParens(Span { start, end }))
        }
        _ => Ok(Action::Done),
    }
}

// The end of the text, where something has to follow.
fn unended(b: Before, e: usize) -> Turn
    ensures { result ≡ Err (unexpected (span e e) b) }
{
    Err(Refusal::Unexpected(Span { start: e, end: e }, expected(b)))
}

// The end of the text.
fn on_end(e: usize, b: Before, top: Frame) -> Turn
    ensures { result ≡ end_action e b top }
{
    match b {
        Before::Nothing => Err(Refusal::Empty(Span { start: 0, end: e })),
        Before::Joint | Before::With => unended(b, e),
        _ => finish(top),
    }
}

// One turn: a step's token or the end of the text, the last leaf, the state and the frame on top.
fn turn(m: Mode, step: Option<Got>, e: usize, leaf: Leaf, st: State, top: Frame) -> Turn
    requires { SmallStep step × (st.sp < 1000) × (st.count < 1000) }
    ensures { result ≡ turn_of m step e leaf st top }
{
    match step {
        Some(got) => on_token(m, got.token, got.span, leaf, st, top),
        None => on_end(e, st.before, top),
    }
}

// Where an operand has ended, a token ends the operators that bind tighter than itself.
fn rank_by(k: Link) -> Ends
    ensures { level result ≡ rank_by k }
{
    match k {
        Link::And | Link::Other => Ends::Nothing,
        Link::Or => Ends::Ands,
        Link::Close => Ends::All,
    }
}

// The same where an operand has ended; the end of the text is like a `)`.
fn rank_after(step: Option<Got>) -> Ends
    ensures { level result ≡ rank_after step }
{
    match step {
        Some(got) => rank_by(link_of(got.token)),
        None => Ends::All,
    }
}

// Where no operand has ended, none is popped.
#[tactic(auto, unfolding(crate::specs::Turn::rank_of))]
fn rank(step: Option<Got>, b: Before) -> Ends
    ensures { level result ≡ rank_of step b }
{
    if is_expecting(b) | is_with(b) {
        Ends::Nothing
    } else {
        rank_after(step)
    }
}

// Is a frame an operator that is ended?
fn pops(frame: Frame, ends: Ends) -> bool
    ensures { result ≡ pops_of frame (level ends) }
{
    match frame {
        Frame::And => matches!(ends, Ends::Ands | Ends::All),
        Frame::Or => matches!(ends, Ends::All),
        _ => false,
    }
}

// The operator of a frame.
fn operator(frame: Frame) -> Node
    ensures { result ≡ kind_of frame }
{
    match frame {
        Frame::And => Node::And,
        _ => Node::Or,
    }
}

// The stack reader, of a text that was checked, over blank nodes that are lent: how many it has set.
fn set_nodes(m: Mode, s: &[u8], nodes: &mut [Node; 127]) -> Result<usize, Refusal>
    requires { (check_of s.now ≡ Ok tt) × (nodes.old ≡ replicate 127 blank) }
    ensures { with_nodes result nodes.new ≡ answer_of (read m (length s.now) (tokens_of s.now m 0)) }
{
    let e = s.len();
    let mut stack = [Frame::Bottom; 97];
    let mut leaf = Leaf {
        licence: Licence::Listed(0),
        plus: false,
        addition: Addition::Nothing,
        span: Range { start: 0, end: 0 },
    };
    let mut st = State {
        at: 0,
        sp: 0,
        count: 0,
        leaves: 0,
        opens: 0,
        before: Before::Nothing,
    };
    loop {
        let step = lexer::scan(m, s, st.at)?;
        let ends = rank(step, st.before);
        let mut sp = st.sp;
        let mut count = st.count;
        // the operators that this token ends become nodes
        while pops(stack[sp], ends) {
            nodes[count] = operator(stack[sp]);
            count += 1;
            sp -= 1;
        }
        let ready = State { sp, count, ..st };
        match turn(m, step, e, leaf, ready, stack[sp])? {
            Action::Put(l, next) => {
                nodes[next.count - 1] = Node::Leaf(l);
                leaf = l;
                st = next;
            }
            Action::Push(frame, next) => {
                stack[next.sp] = frame;
                st = next;
            }
            Action::Go(next) => {
                st = next;
            }
            Action::Done => {
                return Ok(count);
            }
        }
    }
}

// The same: a refused text leaves no nodes.
fn fill_nodes(m: Mode, s: &[u8], nodes: &mut [Node; 127]) -> Result<usize, Refusal>
    requires { (check_of s.now ≡ Ok tt) × (nodes.old ≡ replicate 127 blank) }
    ensures { (result ≡ told_count (answer_of (read m (length s.now) (tokens_of s.now m 0))))
        × (nodes.new ≡ left_nodes (answer_of (read m (length s.now) (tokens_of s.now m 0)))) }
{
    let read = set_nodes(m, s, nodes);
    if read.is_err() {
        *nodes = [Node::Blank; 127];
    }
    read
}

// The stack reader, of a text that was checked.
fn read_tokens(m: Mode, s: &[u8]) -> Parsed
    requires { check_of s.now ≡ Ok tt }
    ensures { result ≡ answer_of (read m (length s.now) (tokens_of s.now m 0)) }
{
    let mut nodes = [Node::Blank; 127];
    let count = fill_nodes(m, s, &mut nodes)?;
    Ok(Nodes { count, nodes })
}

// A text in any mode: its nodes, or why it has none.
#[tactic(auto, unfolding(grammar::specs::Grammar::parse_of))]
pub fn parse(s: &[u8], m: Mode) -> Parsed
    ensures { result ≡ answer_of (parse_of s.now m) }
{
    lexer::check(s)?;
    read_tokens(m, s)
}
