// A text and a cursor in it, held together.
#![tactic(auto)]

ghost use Rattle.std.specs.Prelude.{◌≡◌};
ghost use Rattle.lexer.specs.Lex.{step_of};

pub use lexer::{Cursor, Step};
pub use mode::Mode;

// It borrows the text. Each of its methods is thin, and the work is left to the lexer's step. The fields stand in the order in which that
// step takes them.
#[derive(Clone, Copy)]
pub struct Reader<'a> {
    pub cursor: Cursor,
    pub text: &'a [u8],
}

impl<'a> Reader<'a> {
    pub fn new(cursor: Cursor, text: &'a [u8]) -> Reader<'a>
        ensures { (result.cursor ≡ cursor) × (result.text ≡ text.entry) }
    {
        Reader { cursor, text }
    }

    // What stands at the reader's cursor, by the lexer's own definition.
    pub fn step(self) -> Step
        ensures { result ≡ step_of self.entry.text.now self.entry.cursor.mode self.entry.cursor.at }
    {
        self.cursor.step(self.text)
    }

    // The same text at another cursor.
    pub fn moved(self, cursor: Cursor) -> Reader<'a>
        ensures { (result.cursor ≡ cursor) × (result.text ≡ self.entry.text) }
    {
        Reader { cursor, ..self }
    }
}

// The same on plain parameters, for a caller that holds no reader.
pub fn step_at(text: &[u8], mode: Mode, place: usize) -> Step
    ensures { result ≡ step_of text.now mode place }
{
    Reader::new(Cursor { mode, at: place }, text).step()
}
