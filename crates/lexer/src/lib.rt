// From bytes to tokens: a cursor by value whose step hands the next cursor back.
#![tactic(auto)]

ghost use Rattle.std.specs.Prelude.{◌≡◌, ◌≤◌, ◌||◌, length, drop};
ghost use Rattle.text.specs.Text.{same};
ghost use Rattle.text.specs.Runs.{ref_byte, run_byte};
ghost use Rattle.text.specs.Walk.{one};
ghost use Rattle.text.specs.WalkLaws.{one_fits};
ghost use Rattle.lexer.specs.Lex.{run_end, ref_end, operator_of, unknown_of, word_of, got, run_of, mark_of, scan_of, check_of, from_of, step_of};
ghost use Rattle.lexer.specs.Shape.{listed_of, named_of, document_of, ref_at, referred_of, loose_of, other_of};

mod run_bits;

pub use mode::Mode;
use refusal::{Refusal, Span};

// A listed name is its place among the licences or the exceptions, a reference the ranges of its names: of its document part, if it has one, and its own.
#[derive(Clone, Copy)]
pub enum Token {
    And,
    Or,
    With,
    Plus,
    Open,
    Close,
    Licence(usize),
    Exception(usize),
    LicenseRef { doc: Option<Span>, name: Span },
    AdditionRef { doc: Option<Span>, name: Span },
    Unknown(Span),
}

// A place in a text, and the mode in which it is read.
#[derive(Clone, Copy)]
pub struct Cursor {
    pub mode: Mode,
    pub at: usize,
}

// What a step found: a token, where it stands, and the next cursor.
#[derive(Clone, Copy)]
pub struct Got {
    pub token: Token,
    pub span: Span,
    pub next: Cursor,
}

// The answer of a step: nothing where the text has ended. A refusal gives no next cursor.
pub type Step = Result<Option<Got>, Refusal>;

fn ref_byte(b: u8) -> bool
    ensures { result ≡ ref_byte b }
{
    b.is_ascii_alphanumeric() | (b == b'-') | (b == b'.')
}

#[tactic(auto, using(crate::specs::RunBits::run_bit_says))]
fn run_byte(b: u8) -> bool
    ensures { result ≡ run_byte b }
{
    run_bits::run_bits()[b as usize] == 1
}

// A walk over the bytes of a reference's name.
struct RefBytes;

impl text::Step for RefBytes {
    ghost width = { one ref_byte };

    fn width_at(s: &[u8], at: usize) -> usize {
        usize::from(ref_byte(text::byte(s, at)))
    }

    ghost fits = { one_fits ref_byte };
}

// A walk over the bytes of a run.
struct RunBytes;

impl text::Step for RunBytes {
    ghost width = { one run_byte };

    fn width_at(s: &[u8], at: usize) -> usize {
        usize::from(run_byte(text::byte(s, at)))
    }

    ghost fits = { one_fits run_byte };
}

// Where the reference's name that starts at a place ends.
#[tactic(auto, unfolding(crate::specs::Lex::ref_end))]
fn ref_end(s: &[u8], from: usize) -> usize
    ensures { result ≡ ref_end s.now from }
{
    text::walk::<RefBytes>(s, from)
}

// Where the run that starts at a place ends.
#[tactic(auto, unfolding(crate::specs::Lex::run_end))]
fn run_end(s: &[u8], from: usize) -> usize
    ensures { result ≡ run_end s.now from }
{
    text::walk::<RunBytes>(s, from)
}

#[tactic(auto, using(std::proofs::lemmas::Bool::Decides::nat_tests, crate::proofs::LexLaws::operator_short, crate::proofs::LexLaws::operator_two, crate::proofs::LexLaws::operator_three, crate::proofs::LexLaws::operator_four, crate::proofs::LexLaws::operator_long), unfolding(crate::specs::Lex::operator_of, text::specs::Text::same))]
fn operator(run: &[u8], e: usize) -> Option<(Token, usize)>
    ensures { result ≡ operator_of run.now e }
{
    match run {
        b"AND" | b"and" => Some((Token::And, e)),
        b"OR" | b"or" => Some((Token::Or, e)),
        b"WITH" | b"with" => Some((Token::With, e)),
        _ => None,
    }
}

// A licence, else an exception.
fn listed(run: &[u8], e: usize) -> Option<(Token, usize)>
    ensures { result ≡ listed_of run.now e }
{
    if let Some(k) = names::licence(run) {
        return Some((Token::Licence(k), e));
    }
    if let Some(k) = names::exception(run) {
        return Some((Token::Exception(k), e));
    }
    None
}

// What is known by the run's bytes alone.
fn named(run: &[u8], e: usize) -> Option<(Token, usize)>
    ensures { result ≡ named_of run.now e }
{
    operator(run, e).or_else(|| listed(run, e))
}

// The document part in front of a reference: a run is split at its first `:`.
fn document(s: &[u8], p: usize) -> Option<Span>
    ensures { result ≡ document_of s.now p }
{
    if text::stands(b"DocumentRef-", s, p) {
        let e = ref_end(s, p);
        if text::byte(s, e) == b':' {
            return Some(Span {
                start: p + 12,
                end: e,
            });
        }
    }
    None
}

// The reference at a place, behind its document part.
fn ref_at(s: &[u8], q: usize, doc: Option<Span>) -> Option<(Token, usize)>
    ensures { result ≡ ref_at s.now q doc }
{
    if text::stands(b"LicenseRef-", s, q) {
        let start = q + 11;
        let end = ref_end(s, start);
        let name = Span { start, end };
        return Some((Token::LicenseRef { doc, name }, end));
    }
    if text::stands(b"AdditionRef-", s, q) {
        let start = q + 12;
        let end = ref_end(s, start);
        let name = Span { start, end };
        return Some((Token::AdditionRef { doc, name }, end));
    }
    None
}

fn reference(s: &[u8], p: usize) -> Option<(Token, usize)>
    ensures { result ≡ referred_of s.now p }
{
    let doc = document(s, p);
    match doc {
        Some(part) => ref_at(s, part.end + 1, doc),
        None => ref_at(s, p, None),
    }
}

fn unknown(m: Mode, p: usize, e: usize) -> Option<(Token, usize)>
    ensures { result ≡ unknown_of m p e }
{
    if m.unknown {
        Some((Token::Unknown(Span { start: p, end: e }), e))
    } else {
        None
    }
}

// An imprecise name, else an unknown term, each if the mode allows it.
fn loose(m: Mode, s: &[u8], p: usize, e: usize) -> Option<(Token, usize)>
    ensures { result ≡ loose_of s.now m p e }
{
    if m.imprecise {
        if let Some(name) = names::imprecise(s, p) {
            return Some((Token::Licence(name.licence), p + name.len));
        }
    }
    unknown(m, p, e)
}

// What a run is that is no name by its bytes alone.
fn other(m: Mode, s: &[u8], p: usize, e: usize) -> Option<(Token, usize)>
    ensures { result ≡ other_of s.now m p e }
{
    reference(s, p).or_else(|| loose(m, s, p, e))
}

// The run from p to e: its token and where that ends, or nothing.
fn known(m: Mode, s: &[u8], p: usize, e: usize) -> Option<(Token, usize)>
    requires { (p ≤ e) × (e ≤ length s.now) }
    ensures { result ≡ word_of s.now m p e }
{
    named(&s[p..e], e).or_else(|| other(m, s, p, e))
}

// The token from start to end, and the cursor behind it.
fn emit(mode: Mode, token: Token, start: usize, end: usize) -> Step
    ensures { result ≡ got mode token start end }
{
    Ok(Some(Got {
        token,
        span: Span { start, end },
        next: Cursor { mode, at: end },
    }))
}

fn run(m: Mode, s: &[u8], p: usize) -> Step
    requires { p ≤ length s.now }
    ensures { result ≡ run_of s.now m p }
{
    let e = run_end(s, p);
    if e == p {
        return Err(Refusal::InvalidCharacters(Span {
            start: p,
            end: s.len(),
        }));
    }
    match known(m, s, p, e) {
        Some((token, end)) => emit(m, token, p, end),
        None => Err(Refusal::UnknownTerm(Span { start: p, end: e })),
    }
}

// What stands at p, where the white space from `at` on ends.
#[tactic(auto, using(crate::proofs::LexLaws::mark_done))]
fn mark(m: Mode, s: &[u8], at: usize, p: usize) -> Step
    ensures { result ≡ mark_of s.now m at p }
{
    if s.len() <= p {
        return Ok(None);
    }
    let b = s[p];
    if b == b'+' {
        if p == at {
            return emit(m, Token::Plus, p, p + 1);
        }
        return Err(Refusal::SeparatedPlus(Span { start: at, end: p }));
    }
    if b == b'(' {
        return emit(m, Token::Open, p, p + 1);
    }
    if b == b')' {
        return emit(m, Token::Close, p, p + 1);
    }
    if (b == b'/') & m.slash {
        return emit(m, Token::Or, p, p + 1);
    }
    run(m, s, p)
}

// The step in a text that was checked, from a place between two characters: who reads a whole text checks it once.
pub fn scan(m: Mode, s: &[u8], at: usize) -> Step
    ensures { result ≡ scan_of s.now m at }
{
    mark(m, s, at, utf8::past_white(s, at))
}

// May a text be read: at most 1,024 bytes of well-formed UTF-8?
#[tactic(auto, using(crate::proofs::Agree::check_long))]
pub fn check(s: &[u8]) -> Result<(), Refusal>
    ensures { result ≡ check_of s.now }
{
    if 1024 < s.len() {
        return Err(Refusal::TooLong);
    }
    let start = utf8::first_ill(s);
    if start < s.len() {
        let end = start + 1;
        return Err(Refusal::NotUtf8(Span { start, end }));
    }
    Ok(())
}

// The step in a text that was checked, from any place.
fn from(m: Mode, s: &[u8], at: usize) -> Step
    ensures { result ≡ from_of s.now m at }
{
    if (s.len() < at) | utf8::inside(s, at) {
        return Err(Refusal::BadCursor(at as u64));
    }
    scan(m, s, at)
}

impl Cursor {
    // The step in any bytes, from any place.
    pub fn step(self, s: &[u8]) -> Step
        ensures { result ≡ step_of s.now self.mode self.at }
    {
        check(s)?;
        from(self.mode, s, self.at)
    }
}
