// The list file: its entries, or what is wrong with it and where.
use crate::stop::Stop;
use crate::write::Out;
use crate::{phrases, refusals, show, write};
use mode::Mode;
use refusal::Refusal;

// What the contents say of an entry: where its body begins, and how many bytes that has.
#[derive(Clone, Copy)]
struct Entry {
    from: usize,
    len: usize,
}

impl Entry {
    // Two numbers of two bytes, low byte first. The contents stand behind the count.
    fn of(file: &[u8], e: usize) -> Option<Entry> {
        match file.get(1..)?.chunks(4).nth(e)? {
            [a, b, c, d] => Some(Entry {
                from: u16::from_le_bytes([*a, *b]) as usize,
                len: u16::from_le_bytes([*c, *d]) as usize,
            }),
            _ => None,
        }
    }

    fn end(self) -> usize {
        self.from.saturating_add(self.len)
    }
}

// Where the body of an entry has to begin: behind the contents, or behind the body before.
fn begin(file: &[u8], e: usize) -> usize {
    match e.checked_sub(1) {
        Some(before) => Entry::of(file, before).map_or(0, Entry::end),
        None => 1 + 4 * text::byte(file, 0) as usize,
    }
}

// A body that is wrong: how it is refused as an expression, or that it is more than a licensee.
fn wrong_body(s: &[u8], out: &mut Out) {
    write::line(out, phrases::BAD_BODY);
    match parser::parse(s, Mode::strict()) {
        Err(r) => refusals::refused(s, r, out),
        Ok(_) => {
            show::whole(s, out);
            write::line_end(out);
        }
    }
}

// What is wrong with an entry, in document 01's order: offset, length, end, body.
fn wrong_entry(file: &[u8], e: usize, x: Entry, out: &mut Out) {
    let begin = begin(file, e);
    if x.from != begin {
        write::count(out, phrases::BAD_OFFSET, x.from as u64, phrases::BEGINS);
        write::decimal(out, begin as u64);
        write::line_end(out);
    } else if (x.len == 0) | (200 < x.len) {
        write::count(out, phrases::BAD_LENGTH, x.len as u64, phrases::LENGTHS);
        write::line_end(out);
    } else if file.len() < x.end() {
        write::line(out, phrases::BAD_BODY_END);
    } else {
        wrong_body(text::cut(file, x.from, x.end()), out);
    }
}

// 17, with where and what is wrong: an entry from 0 up, 255 for count or contents, 254 for bytes after the end.
pub(crate) fn wrong(file: &[u8], r: Refusal, e: usize, out: &mut Out) {
    refusals::told(r, out);
    match e {
        255 => write::line(out, phrases::BAD_COUNT),
        254 => write::line(out, phrases::BAD_END),
        _ => {
            write::count(out, phrases::BAD_ENTRY, e as u64, phrases::COMMA);
            if let Some(x) = Entry::of(file, e) {
                wrong_entry(file, e, x, out);
            }
        }
    }
}

// A valid list file: how many entries it has, and each of them.
fn valid(file: &[u8], count: usize, out: &mut Out) {
    write::text(out, phrases::VALID);
    write::plural(out, count as u64, phrases::ENTRY, phrases::ENTRIES);
    write::line_end(out);
    for i in 0..count {
        write::decimal(out, i as u64);
        write::text(out, phrases::GAP);
        show::whole(licensee::entry(file, i), out);
        write::line_end(out);
    }
}

// Checks a list file.
pub(crate) fn check(rt: &HostRuntime, file: &[u8], out: &mut Out) -> Result<(), Stop> {
    let count = licensee::check(file)?;
    valid(file, count, out);
    write::flush(rt, out)?;
    Ok(())
}
