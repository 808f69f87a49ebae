// A text as a terminal shows it, column by column.
ghost use Rattle.std.specs.Prelude.{length};
ghost use Rattle.std.specs.Iterator.{at_most};

use crate::write;
use crate::write::Out;
use refusal::Span;

// Is a code point shown in the column of the one before, or not at all?
fn is_joined(code: u32) -> bool {
    matches!(
        code,
        0x300..=0x36F
            | 0x483..=0x489
            | 0x591..=0x5BD
            | 0x610..=0x61A
            | 0x64B..=0x65F
            | 0x1AB0..=0x1AFF
            | 0x1DC0..=0x1DFF
            | 0x200B..=0x200F
            | 0x202A..=0x202E
            | 0x2060..=0x2064
            | 0x20D0..=0x20FF
            | 0xFE00..=0xFE0F
            | 0xFE20..=0xFE2F
            | 0xFEFF
            | 0xE0100..=0xE01EF
    )
}

// Does a code point take two columns?
fn is_wide(code: u32) -> bool {
    matches!(
        code,
        0x1100..=0x115F
            | 0x2E80..=0x303E
            | 0x3041..=0x4DBF
            | 0x4E00..=0xA4CF
            | 0xA960..=0xA97F
            | 0xAC00..=0xD7A3
            | 0xF900..=0xFAFF
            | 0xFE30..=0xFE6F
            | 0xFF00..=0xFF60
            | 0xFFE0..=0xFFE6
            | 0x1F300..=0x1F64F
            | 0x1F900..=0x1F9FF
            | 0x20000..=0x3FFFD
    )
}

// Would a terminal act on it? DEL, the controls behind it, and what ends a line.
fn is_control(code: u32) -> bool {
    matches!(code, 0x7F..=0x9F | 0x2028 | 0x2029)
}

// A character of a text, or an ill-formed byte, which has no code point.
#[derive(Clone, Copy)]
struct Shown<'a> {
    code: Option<u32>,
    bytes: &'a [u8],
}

impl Shown<'_> {
    fn columns(&self) -> usize {
        match self.code {
            Some(code) if is_joined(code) => 0,
            Some(code) if is_wide(code) => 2,
            _ => 1,
        }
    }

    // What a terminal would act on is shown by something in one column.
    fn put(&self, out: &mut Out) {
        match self.code {
            None => write::text(out, "\u{FFFD}"),
            Some(code) if code < 0x20 => picture(code, out),
            Some(code) if is_control(code) => write::text(out, "·"),
            Some(_) => out.bytes(self.bytes),
        }
    }
}

// A control character of ASCII, by its picture: the code points from 2400 on.
fn picture(code: u32, out: &mut Out) {
    out.bytes(b"\xE2\x90");
    out.byte(0x80 + (code % 32) as u8);
}

// What a text begins with: its code point, if it has one, and how many bytes it takes.
fn front(s: &[u8]) -> (Option<u32>, usize) {
    match utf8::char_at(s, 0) {
        Some(c) => (Some(c.code), c.width),
        None => (None, 1),
    }
}

// The characters of a text, from the left.
#[derive(Drop)]
struct Characters<'a>(&'a [u8]);

impl<'a> Iterator for Characters<'a> {
    type Item = Shown<'a>;

    ghost remaining = { λ s. at_most (length s.0.now) };

    fn next(&mut self) -> Option<Shown<'a>> {
        if self.0.is_empty() {
            return None;
        }
        let (code, width) = front(self.0);
        let (bytes, rest) = self.0.split_at(width.clamp(1, self.0.len()));
        self.0 = rest;
        Some(Shown { code, bytes })
    }
}

// The whole text.
pub(crate) fn whole(s: &[u8], out: &mut Out) {
    for c in Characters(s) {
        c.put(out);
    }
}

fn columns(s: &[u8]) -> usize {
    Characters(s).fold(0, |n: usize, c| n.saturating_add(c.columns()))
}

// Does a text begin with a mark that stands in the column before?
fn joins(s: &[u8]) -> bool {
    Characters(s).next().is_some_and(|c| c.columns() == 0)
}

// The text, and a line with carets under a part of it: at least one, since an empty part has one too.
pub(crate) fn pointed(s: &[u8], span: Span, out: &mut Out) {
    let before = columns(text::cut(s, 0, span.start));
    let part = text::cut(s, span.start, span.end);
    let joined = before.min(usize::from(joins(part)));
    whole(s, out);
    write::line_end(out);
    out.repeat(b' ', before - joined);
    out.repeat(b'^', columns(part).saturating_add(joined).max(1));
    write::line_end(out);
}
