// Questions of the lexer.
use crate::write::Out;
use crate::{refusals, write};
use lexer::{Cursor, Mode, Token};
use refusal::Span;

// A reference's names: the document part's, - where there is none, and its own.
fn reference(doc: Option<Span>, name: Span, out: &mut Out) {
    match doc {
        None => out.bytes(b" -"),
        Some(part) => write::range(out, part),
    }
    write::range(out, name);
}

fn token(x: Token, out: &mut Out) {
    match x {
        Token::And => out.bytes(b" AND"),
        Token::Or => out.bytes(b" OR"),
        Token::With => out.bytes(b" WITH"),
        Token::Plus => out.bytes(b" +"),
        Token::Open => out.bytes(b" ("),
        Token::Close => out.bytes(b" )"),
        Token::Licence(k) => {
            out.bytes(b" licence");
            write::name(out, k);
        }
        Token::Exception(k) => {
            out.bytes(b" exception");
            write::exception(out, k);
        }
        Token::LicenseRef { doc, name } => {
            out.bytes(b" licenseref");
            reference(doc, name, out);
        }
        Token::AdditionRef { doc, name } => {
            out.bytes(b" additionref");
            reference(doc, name, out);
        }
        Token::Unknown(name) => {
            out.bytes(b" unknown");
            write::range(out, name);
        }
    }
}

// step MODE PLACE TEXT: token T a..b next P, done, or a refusal.
pub(crate) fn step(mode: Mode, place: u64, s: &[u8], out: &mut Out) {
    let c = Cursor {
        mode,
        at: place as usize,
    };
    match c.step(s) {
        Ok(Some(got)) => {
            out.bytes(b"token");
            token(got.token, out);
            write::range(out, got.span);
            out.bytes(b" next");
            write::number(out, got.next.at as u64);
        }
        Ok(None) => out.bytes(b"done"),
        Err(r) => refusals::refused(r, out),
    }
}
