// The canonical text: an expression in the one spelling that every reader of the specification takes.
#![tactic(auto)]

ghost use Rattle.std.specs.Prelude.{◌≡◌, true, ◌+◌, ◌*◌, ◌<◌, ◌≤◌, length, take, Ok};
ghost use Rattle.text.specs.Overlay.{overlay};
ghost use Rattle.names.specs.Listed.{listed, exceptions};
ghost use Rattle.names.specs.Lookup.{exception_name, gnu_of};
ghost use Rattle.lexer.specs.Lex.{check_of};
ghost use Rattle.lexer.specs.Standing.{Standing};
ghost use Rattle.canonical.specs.Canonical.{alone, plussed, text, canonical_of, answer_of, buffer_of};
ghost use Rattle.canonical.specs.Turn.{goes, licence_piece, licence_next, piece, token_turn, Drafted};

use lexer::{Got, Token};
use mode::Mode;
use names::table::LICENCES;
use refusal::{Expected, Refusal};

// What became of a text that has a canonical text, and of the buffer that was lent for it.
#[derive(Clone, Copy)]
pub enum Answer {
    // the text is canonical, and nothing was written
    Unchanged,
    // so many bytes were written to the front of the buffer
    Written(usize),
}

// How far a draft has come: the next token is looked for at a place of the text, and so many bytes are written.
#[derive(Clone, Copy)]
pub struct Place {
    pub at: usize,
    pub len: usize,
}

// The listed licence k alone: a bare GNU name is written as its "-only" name.
fn put_alone(k: usize, out: &mut [u8], at: usize) -> usize
    requires { (k < length listed) × (at + length (alone k) ≤ length out.old) }
    ensures { (result ≡ at + length (alone k)) × (out.new ≡ overlay at (alone k) out.old) }
{
    let j = names::only(k).unwrap_or(k);
    names::put_name(j, out, at)
}

// The GNU licence k with its `+`: its "-or-later" name, or a second suffix where it has one already.
fn put_later(k: usize, out: &mut [u8], at: usize) -> usize
    requires { (k < length listed) × (gnu_of k ≡ true) × (at + length (plussed k) ≤ length out.old) }
    ensures { (result ≡ at + length (plussed k)) × (out.new ≡ overlay at (plussed k) out.old) }
{
    match names::later(k) {
        Some(j) => names::put_name(j, out, at),
        None => {
            let n = names::put_name(k, out, at);
            text::put(out, n, b"-or-later")
        }
    }
}

// The listed licence k with its `+`.
fn put_plussed(k: usize, out: &mut [u8], at: usize) -> usize
    requires { (k < length listed) × (at + length (plussed k) ≤ length out.old) }
    ensures { (result ≡ at + length (plussed k)) × (out.new ≡ overlay at (plussed k) out.old) }
{
    if names::gnu(k) {
        return put_later(k, out, at);
    }
    let n = names::put_name(k, out, at);
    text::put(out, n, b"+")
}

// The listed licence k, which ends at e in the text: a `+` that belongs to it follows at once, since white space before a `+` is refused.
fn put_licence(s: &[u8], k: usize, e: usize, out: &mut [u8], n: usize) -> Place
    requires { (k < length listed) × (n + length (licence_piece s.now k e) ≤ length out.old) }
    ensures { (result ≡ goes (licence_next s.now e) (n + length (licence_piece s.now k e)))
        × (out.new ≡ overlay n (licence_piece s.now k e) out.old) }
{
    if text::byte(s, e) == b'+' {
        let len = put_plussed(k, out, n);
        return Place { at: e + 1, len };
    }
    let len = put_alone(k, out, n);
    Place { at: e, len }
}

// A token that is no licence and no `+`, which ends at e in the text: p is how it is written.
fn put_piece(p: &[u8], e: usize, out: &mut [u8], n: usize) -> Place
    requires { n + length p.now ≤ length out.old }
    ensures { (result ≡ goes e (n + length p.now)) × (out.new ≡ overlay n p.now out.old) }
{
    let len = text::put(out, n, p);
    Place { at: e, len }
}

// The exception k, which ends at e in the text.
fn put_exception(k: usize, e: usize, out: &mut [u8], n: usize) -> Place
    requires { (k < length exceptions) × (n + length (exception_name k) ≤ length out.old) }
    ensures { (result ≡ goes e (n + length (exception_name k))) × (out.new ≡ overlay n (exception_name k) out.old) }
{
    let len = names::put_name(LICENCES + k, out, n);
    Place { at: e, len }
}

// What a step found, where n bytes of the draft are written. A `+` that is found here stands behind no listed licence.
fn put_token(s: &[u8], got: Got, out: &mut [u8], n: usize) -> Result<Place, Refusal>
    requires { Standing s.now got.token got.span × (n + length (piece s.now got.token got.next.at) ≤ length out.old) }
    ensures { (result ≡ token_turn s.now n got.token got.span got.next.at)
        × (out.new ≡ overlay n (piece s.now got.token got.next.at) out.old) }
{
    let e = got.next.at;
    let start = got.span.start;
    let end = got.span.end;
    match got.token {
        Token::And => Ok(put_piece(b" AND ", e, out, n)),
        Token::Or => Ok(put_piece(b" OR ", e, out, n)),
        Token::With => Ok(put_piece(b" WITH ", e, out, n)),
        Token::Plus => Err(Refusal::Unexpected(got.span, Expected::Licence)),
        Token::Open => Ok(put_piece(b"(", e, out, n)),
        Token::Close => Ok(put_piece(b")", e, out, n)),
        Token::Licence(k) => Ok(put_licence(s, k, e, out, n)),
        Token::Exception(k) => Ok(put_exception(k, e, out, n)),
        Token::LicenseRef { .. } | Token::AdditionRef { .. } | Token::Unknown(_) => {
            Ok(put_piece(text::cut(s, start, end), e, out, n))
        }
    }
}

// The canonical text of a text that was checked, from the front of a buffer that has room for four times the text: how long it is.
fn compose(s: &[u8], out: &mut [u8]) -> Result<usize, Refusal>
    requires { (check_of s.now ≡ Ok tt) × (4 * length s.now ≤ length out.old) }
    ensures { Drafted (canonical_of s.now) result out.new }
{
    let m = Mode::lax();
    let mut place = Place { at: 0, len: 0 };
    while let Some(got) = lexer::scan(m, s, place.at)? {
        place = put_token(s, got, out, place.len)?;
    }
    Ok(place.len)
}

// The first n bytes of a draft are the canonical text of s: compared, and copied if they differ from s and there is room.
fn finish(s: &[u8], draft: &[u8], n: usize, out: &mut [u8]) -> Result<Answer, Refusal>
    requires { n ≤ length draft.now }
    ensures { (result ≡ answer_of s.now out.old (text (take n draft.now)))
        × (out.new ≡ buffer_of s.now out.old (text (take n draft.now))) }
{
    if text::equal(&draft[..n], s) {
        return Ok(Answer::Unchanged);
    }
    if out.len() < n {
        return Err(Refusal::NoRoom(n));
    }
    text::put(out, 0, &draft[..n]);
    Ok(Answer::Written(n))
}

// The canonical text of a text that was checked: a draft in an array of its own, so that a refused call has touched nothing.
fn settle(s: &[u8], out: &mut [u8]) -> Result<Answer, Refusal>
    requires { check_of s.now ≡ Ok tt }
    ensures { (result ≡ answer_of s.now out.old (canonical_of s.now))
        × (out.new ≡ buffer_of s.now out.old (canonical_of s.now)) }
{
    let mut room = [0u8; 4096];
    let n = compose(s, &mut room)?;
    finish(s, &room, n, out)
}

// The canonical text of s in the front of out, unless it is s itself, is refused or has no room.
pub fn canonical(s: &[u8], out: &mut [u8]) -> Result<Answer, Refusal>
    ensures { (result ≡ answer_of s.now out.old (canonical_of s.now))
        × (out.new ≡ buffer_of s.now out.old (canonical_of s.now)) }
{
    lexer::check(s)?;
    settle(s, out)
}
