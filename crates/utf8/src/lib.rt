// UTF-8: is a text well-formed, which character stands at a place, is it white space.
#![tactic(auto)]

ghost use Rattle.std.specs.Prelude.{◌≡◌, cond, drop};
ghost use Rattle.text.specs.Every.{all_of};
ghost use Rattle.utf8.specs.Utf8.{ascii_byte, lowest, highest, two, three, four, decoded, front, char_width, first_ill, inside_of, white_of, white_width, past_white};
ghost use Rattle.utf8.specs.Laws.{char_width_fits, white_width_fits};

use text::Step;

// A character: its code point and how many bytes it takes.
#[derive(Clone, Copy)]
pub struct Char {
    pub code: u32,
    pub width: usize,
}

// Is a code point white space? All 25 of Unicode's.
#[tactic(auto, using(std::proofs::lemmas::Bool::Decides::nat_tests), unfolding(crate::specs::Utf8::white_of, text::specs::Text::within))]
pub fn is_white(code: u32) -> bool
    ensures { result ≡ white_of code }
{
    matches!(
        code,
        0x9..=0xD
            | 0x20
            | 0x85
            | 0xA0
            | 0x1680
            | 0x2000..=0x200A
            | 0x2028
            | 0x2029
            | 0x202F
            | 0x205F
            | 0x3000
    )
}

// The least second byte after a first byte: no overlong form.
#[tactic(auto, unfolding(crate::specs::Utf8::lowest))]
fn least(a: u8) -> u8
    ensures { result ≡ lowest a }
{
    match a {
        0xE0 => 0xA0,
        0xF0 => 0x90,
        _ => 0x80,
    }
}

// The greatest second byte after a first byte: no surrogate, nothing above 10FFFF.
#[tactic(auto, unfolding(crate::specs::Utf8::highest))]
fn greatest(a: u8) -> u8
    ensures { result ≡ highest a }
{
    match a {
        0xED => 0x9F,
        0xF4 => 0x8F,
        _ => 0xBF,
    }
}

#[tactic(auto, unfolding(crate::specs::Utf8::two))]
fn is_two(a: u8, b: u8) -> bool
    ensures { result ≡ two a b }
{
    text::between(0xC2, 0xDF, a) & text::between(0x80, 0xBF, b)
}

#[tactic(auto, unfolding(crate::specs::Utf8::three))]
fn is_three(a: u8, b: u8, c: u8) -> bool
    ensures { result ≡ three a b c }
{
    text::between(0xE0, 0xEF, a)
        & text::between(least(a), greatest(a), b)
        & text::between(0x80, 0xBF, c)
}

#[tactic(auto, unfolding(crate::specs::Utf8::four))]
fn is_four(a: u8, b: u8, c: u8, d: u8) -> bool
    ensures { result ≡ four a b c d }
{
    text::between(0xF0, 0xF4, a)
        & text::between(least(a), greatest(a), b)
        & text::between(0x80, 0xBF, c)
        & text::between(0x80, 0xBF, d)
}

// The character that four bytes begin with, or none where they begin ill-formed.
#[tactic(auto, using(std::proofs::lemmas::Bool::Decides::nat_tests), unfolding(crate::specs::Utf8::decoded))]
fn decode(a: u8, b: u8, c: u8, d: u8) -> Option<Char>
    ensures { result ≡ decoded a b c d }
{
    if a <= 0x7F {
        return Some(Char {
            code: a as u32,
            width: 1,
        });
    }
    if is_two(a, b) {
        return Some(Char {
            code: (a % 32) as u32 * 64 + (b % 64) as u32,
            width: 2,
        });
    }
    if is_three(a, b, c) {
        return Some(Char {
            code: (a % 16) as u32 * 4096 + (b % 64) as u32 * 64 + (c % 64) as u32,
            width: 3,
        });
    }
    if is_four(a, b, c, d) {
        return Some(Char {
            code: (a % 8) as u32 * 262144
                + (b % 64) as u32 * 4096
                + (c % 64) as u32 * 64
                + (d % 64) as u32,
            width: 4,
        });
    }
    None
}

// The character at a place: none past the end and where the bytes there are ill-formed.
// An ASCII byte is looked at first: nearly every text is nothing else.
pub fn char_at(s: &[u8], at: usize) -> Option<Char>
    ensures { result ≡ front (drop at s.now) }
{
    let a = *s.get(at)?;
    if a <= 0x7F {
        return Some(Char {
            code: a as u32,
            width: 1,
        });
    }
    decode(
        a,
        text::byte(s, at + 1),
        text::byte(s, at + 2),
        text::byte(s, at + 3),
    )
}

// A walk over the characters of a text.
struct Chars;

impl Step for Chars {
    ghost width = { char_width };

    // Nearly all of a text is ASCII, so such a byte is looked at by itself.
    fn width_at(s: &[u8], at: usize) -> usize {
        if at < s.len() && s[at] <= 0x7F {
            return 1;
        }
        char_at(s, at).map_or(0, |c| c.width)
    }

    ghost fits = { char_width_fits };
}

// Is every byte ASCII? No branch in the loop, so that it is done many bytes at a time.
fn is_ascii(s: &[u8]) -> bool
    ensures { result ≡ all_of ascii_byte s.now }
{
    let mut ok = true;
    for b in s {
        ok = ok & (*b <= 0x7F);
    }
    ok
}

// Where the first ill-formed sequence starts, or the length where there is none.
#[tactic(auto, using(crate::specs::Laws::ascii_well), unfolding(crate::specs::Utf8::first_ill))]
pub fn first_ill(s: &[u8]) -> usize
    ensures { result ≡ first_ill s.now }
{
    if is_ascii(s) {
        s.len()
    } else {
        text::walk::<Chars>(s, 0)
    }
}

// Is a place of a well-formed text inside a character?
#[tactic(auto, unfolding(crate::specs::Utf8::inside_of))]
pub fn inside(s: &[u8], at: usize) -> bool
    ensures { result ≡ inside_of s.now at }
{
    text::between(0x80, 0xBF, text::byte(s, at))
}

// How wide an ASCII byte is as white space.
fn ascii_white(b: u8) -> usize
    ensures { result ≡ cond (white_of b) 1 0 }
{
    usize::from(is_white(b as u32))
}

// A walk over the white space of a text.
struct White;

impl Step for White {
    ghost width = { white_width };

    // An ASCII byte is looked at by itself; past the end stands 0, which is no white space.
    fn width_at(s: &[u8], at: usize) -> usize {
        let b = text::byte(s, at);
        if b <= 0x7F {
            return ascii_white(b);
        }
        match char_at(s, at) {
            Some(c) if is_white(c.code) => c.width,
            _ => 0,
        }
    }

    ghost fits = { white_width_fits };
}

// The place after the white space at a place.
#[tactic(auto, unfolding(crate::specs::Utf8::past_white))]
pub fn past_white(s: &[u8], from: usize) -> usize
    ensures { result ≡ past_white s.now from }
{
    text::walk::<White>(s, from)
}
