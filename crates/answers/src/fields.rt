// The fields of a line, which single spaces separate, and what they stand for.
use mode::Mode;

// The highest mode: all flags.
const ALL_FLAGS: u64 = 31;

// As many bytes as a line has room for, two digits each.
const MOST: usize = 32768;

// What a field's text is put into.
pub(crate) type Text = out::Out<MOST>;

// How many fields a line has.
pub(crate) fn count(line: &[u8]) -> usize {
    line.split(|b| *b == b' ').count()
}

// The field k of a line.
pub(crate) fn field(line: &[u8], k: usize) -> Option<&[u8]> {
    line.split(|b| *b == b' ').nth(k)
}

// A number with one more digit.
fn longer(n: u64, b: u8) -> Option<u64> {
    if !b.is_ascii_digit() {
        return None;
    }
    n.checked_mul(10)?.checked_add((b - b'0') as u64)
}

// The number that the field k stands for: decimal, at most u64::MAX.
pub(crate) fn number(line: &[u8], k: usize) -> Option<u64> {
    let s = field(line, k)?;
    if s.is_empty() {
        return None;
    }
    s.iter().try_fold(0, |n, b| longer(n, *b))
}

// The mode of a number.
pub(crate) fn mode(x: u64) -> Option<Mode> {
    if x > ALL_FLAGS {
        return None;
    }
    Some(Mode::from(x as u8))
}

// What a hex digit stands for.
fn digit(b: u8) -> Option<u8> {
    match b {
        b'0'..=b'9' => Some(b - b'0'),
        b'a'..=b'f' => Some(b - b'a' + 10),
        _ => None,
    }
}

// Puts a byte for each pair of hex digits.
fn decode(s: &[u8], into: &mut Text) -> Option<()> {
    let (pairs, rest) = s.as_chunks::<2>();
    if s.is_empty() || !rest.is_empty() || pairs.len() > MOST {
        return None;
    }
    for [high, low] in pairs {
        into.byte(digit(*high)? << 4 | digit(*low)?);
    }
    Some(())
}

// The text that the field k stands for: two digits a byte, `-` where it has none.
pub(crate) fn text<'a>(line: &[u8], k: usize, into: &'a mut Text) -> Option<&'a [u8]> {
    let s = field(line, k)?;
    into.clear();
    if s != b"-".as_slice() {
        decode(s, into)?;
    }
    Some(into.written())
}
