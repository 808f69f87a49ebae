// Questions: the word and the number of fields say what is asked, and of which module; a line with another word or number is no question.
use crate::fields::{Text, field, mode, number, text};
use crate::write::Out;
use crate::{choices, fields, floors, lists, nodes, rewrites, tokens};

// Where the texts of a question are put.
#[derive(Drop)]
pub(crate) struct Texts {
    pub(crate) text: Text,
    pub(crate) file: Text,
}

// WORD TEXT
fn on_text(word: &[u8], s: &[u8], out: &mut Out) -> Option<()> {
    match word {
        b"list" => lists::list(s, out),
        b"utf8" => floors::utf8(s, out),
        b"licence" => floors::licence(s, out),
        b"exception" => floors::exception(s, out),
        b"imprecise" => floors::imprecise(s, out),
        _ => return None,
    }
    Some(())
}

// WORD NUMBER TEXT
fn on_number(word: &[u8], x: u64, s: &[u8], out: &mut Out) -> Option<()> {
    match word {
        b"parse" => nodes::parse(mode(x)?, s, out),
        b"canonical" => rewrites::canonical(x, s, out)?,
        b"entry" => lists::entry(x, s, out),
        b"char" => floors::char(x, s, out),
        b"past" => floors::past(x, s, out),
        b"inside" => floors::inside(x, s, out),
        _ => return None,
    }
    Some(())
}

// step MODE PLACE TEXT
fn step(line: &[u8], texts: &mut Texts, out: &mut Out) -> Option<()> {
    let mode = mode(number(line, 1)?)?;
    let place = number(line, 2)?;
    let s = text(line, 3, &mut texts.text)?;
    tokens::step(mode, place, s, out);
    Some(())
}

// choice MODE BUDGET TEXT FILE
fn choice(line: &[u8], texts: &mut Texts, out: &mut Out) -> Option<()> {
    let mode = mode(number(line, 1)?)?;
    let budget = number(line, 2)?;
    let s = text(line, 3, &mut texts.text)?;
    let file = text(line, 4, &mut texts.file)?;
    choices::choice(mode, budget, s, file, out);
    Some(())
}

// listing MODE CURSOR BUDGET TEXT FILE
fn listing(line: &[u8], texts: &mut Texts, out: &mut Out) -> Option<()> {
    let mode = mode(number(line, 1)?)?;
    let cursor = number(line, 2)?;
    let budget = number(line, 3)?;
    let s = text(line, 4, &mut texts.text)?;
    let file = text(line, 5, &mut texts.file)?;
    choices::listing(mode, cursor, budget, s, file, out);
    Some(())
}

// Answers a line, if it is a question.
pub(crate) fn answer(line: &[u8], texts: &mut Texts, out: &mut Out) -> Option<()> {
    match (field(line, 0)?, fields::count(line)) {
        (word, 2) => on_text(word, text(line, 1, &mut texts.text)?, out),
        (word, 3) => {
            let x = number(line, 1)?;
            on_number(word, x, text(line, 2, &mut texts.text)?, out)
        }
        (b"step", 4) => step(line, texts, out),
        (b"choice", 5) => choice(line, texts, out),
        (b"listing", 6) => listing(line, texts, out),
        _ => None,
    }
}
