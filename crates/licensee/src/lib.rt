// The accept list: its file, its entries as parts of the caller's file, and what a licensee satisfies.
#![tactic(auto)]

ghost use Rattle.std.specs.Prelude.{◌≡◌, ◌+◌, ◌*◌, ◌<◌, ◌≤◌, length, replicate};
ghost use Rattle.lexer.specs.Tokens.{tokens_of};
ghost use Rattle.mode.specs.Modes.{strict};
ghost use Rattle.licensee.specs.Offers.{range_from, part_from, name_in, licence_in, addition_in, behind_with, behind_licence, body_of, at16, offer_of, entries_from, contents, list_of, checked_of, entry_of, entry_at, place_of};
ghost use Rattle.licensee.specs.Terms.{range_number, reference_term, licence_term, addition_term, terms_of, SmallRange, SmallPart, SmallLicence, SmallAddition, same_names, same_documents, same_term, same_terms, meets, blank, accepted_of, told, SmallList, FitsPart, FitsToken};

use grammar::{Addition, Licence, Part, Range};
use lexer::Token;
use mode::Mode;
use refusal::{Refusal, Span};

// What an entry of the list offers. Its ranges stand in the file.
#[derive(Clone, Copy)]
pub struct Licensee {
    pub licence: Licence,
    pub addition: Addition,
}

// A licence or an addition as a number: 0 none, 1 a listed name, 2 a reference, 3 one with a document part; and its index or its places.
#[derive(Clone, Copy)]
pub struct Term {
    pub kind: u8,
    pub places: u64,
}

// Both, with one number for the two kinds.
#[derive(Clone, Copy)]
pub struct Terms {
    pub kinds: u8,
    pub licence: u64,
    pub addition: u64,
}

// No licensee: a licence's kind is not 0.
pub const BLANK: Terms = Terms {
    kinds: 0,
    licence: 0,
    addition: 0,
};

// The licensees of a file as numbers: so many, and blank ones up to 64.
#[derive(Clone, Copy)]
pub struct Accepted {
    pub count: usize,
    pub terms: [Terms; 64],
}

// The body of an entry, and where in the file it starts: its places fit 16 bits.
#[derive(Clone, Copy)]
struct Body<'a> {
    bytes: &'a [u8],
    start: usize,
    ghost small: { start + length bytes.now < 65536 },
}

// Places are stored in 16 bits: a file that reads has at most 13,057 bytes.
fn range_from(a: usize, sp: Span) -> Range
    requires { (a + sp.start < 65536) × (a + sp.end < 65536) }
    ensures { result ≡ range_from a sp }
{
    Range {
        start: (a + sp.start) as u16,
        end: (a + sp.end) as u16,
    }
}

fn part_from(a: usize, d: Option<Span>) -> Part
    requires { FitsPart a d }
    ensures { result ≡ part_from a d }
{
    d.map(|sp| range_from(a, sp))
}

// A listed name, which in STRICT is not deprecated.
#[tactic(auto, unfolding(crate::specs::Offers::name_in))]
fn listed_in(k: usize) -> Option<Licence>
    requires { k < 65536 }
    ensures { result ≡ name_in k }
{
    if names::deprecated(k) {
        None
    } else {
        Some(Licence::Listed(k as u16))
    }
}

// The licence that a token of a body is, which starts at a in the file.
fn licence_in(a: usize, token: Token) -> Option<Licence>
    requires { FitsToken a token }
    ensures { result ≡ licence_in a token }
{
    match token {
        Token::Licence(k) => listed_in(k),
        Token::LicenseRef { doc, name } => Some(Licence::Reference {
            doc: part_from(a, doc),
            name: range_from(a, name),
        }),
        _ => None,
    }
}

// The addition that a token of a body is.
fn addition_in(a: usize, token: Token) -> Option<Addition>
    requires { FitsToken a token }
    ensures { result ≡ addition_in a token }
{
    match token {
        Token::Exception(k) => Some(Addition::Listed(k as u16)),
        Token::AdditionRef { doc, name } => Some(Addition::Reference {
            doc: part_from(a, doc),
            name: range_from(a, name),
        }),
        _ => None,
    }
}

// Behind WITH, from a place of the body on: an addition, and nothing after it.
fn behind_with(body: Body<'_>, at: usize) -> Option<Addition>
    ensures { result ≡ behind_with body.entry.start (tokens_of body.entry.bytes.now strict at) }
{
    let Ok(Some(got)) = lexer::scan(Mode::strict(), body.bytes, at) else {
        return None;
    };
    let Ok(None) = lexer::scan(Mode::strict(), body.bytes, got.next.at) else {
        return None;
    };
    addition_in(body.start, got.token)
}

// Behind the licence, from a place of the body on: nothing, or WITH and an addition.
fn behind_licence(body: Body<'_>, at: usize) -> Option<Addition>
    ensures { result ≡ behind_licence body.entry.start (tokens_of body.entry.bytes.now strict at) }
{
    let Ok(step) = lexer::scan(Mode::strict(), body.bytes, at) else {
        return None;
    };
    let Some(got) = step else {
        return Some(Addition::Nothing);
    };
    let Token::With = got.token else {
        return None;
    };
    behind_with(body, got.next.at)
}

// The body of entry i: STRICT text of one licence, optionally WITH an addition.
fn read_body(body: Body<'_>, i: usize) -> Result<Licensee, Refusal>
    ensures { result ≡ body_of i body.entry.start body.entry.bytes.now }
{
    let Ok(()) = lexer::check(body.bytes) else {
        return Err(Refusal::BadList(i));
    };
    let Ok(Some(got)) = lexer::scan(Mode::strict(), body.bytes, 0) else {
        return Err(Refusal::BadList(i));
    };
    let Some(licence) = licence_in(body.start, got.token) else {
        return Err(Refusal::BadList(i));
    };
    let Some(addition) = behind_licence(body, got.next.at) else {
        return Err(Refusal::BadList(i));
    };
    Ok(Licensee { licence, addition })
}

// 16 bits, low byte first.
#[tactic(auto, unfolding(crate::specs::Offers::at16))]
fn get16(file: &[u8], at: usize) -> usize
    requires { at < 1000 }
    ensures { (result ≡ at16 file.now at) × (result < 65536) }
{
    u16::from_le_bytes([text::byte(file, at), text::byte(file, at + 1)]) as usize
}

// Entry i of the contents, whose body is due at a: its offset, its length n, its end, its body.
fn offer(file: &[u8], i: usize, a: usize, n: usize) -> Result<Licensee, Refusal>
    requires { (i < 64) × (a < 60000) × (n ≡ at16 file.now (3 + 4 * i)) }
    ensures { result ≡ offer_of file.now i a }
{
    let from = get16(file, 1 + 4 * i);
    if (from != a) | (n < 1) | (200 < n) {
        return Err(Refusal::BadList(i));
    }
    if file.len() < a + n {
        return Err(Refusal::BadList(i));
    }
    let body = Body {
        bytes: &file[a..a + n],
        start: a,
    };
    read_body(body, i)
}

#[tactic(auto, unfolding(crate::specs::Terms::range_number))]
fn range_number(r: Range) -> u64
    ensures { (result ≡ range_number r) × SmallRange r × (result < 4294967296) }
{
    r.start as u64 + r.end as u64 * 0x1_0000
}

fn reference_term(doc: Part, name: Range) -> Term
    ensures { (result ≡ reference_term doc name) × SmallPart doc × SmallRange name }
{
    match doc {
        None => Term {
            kind: 2,
            places: range_number(name),
        },
        Some(d) => Term {
            kind: 3,
            places: range_number(name) + range_number(d) * 0x1_0000_0000,
        },
    }
}

fn licence_term(l: Licence) -> Term
    ensures { (result ≡ licence_term l) × SmallLicence l × (result.kind < 4) }
{
    match l {
        Licence::Listed(k) => Term {
            kind: 1,
            places: k as u64,
        },
        Licence::Reference { doc, name } => reference_term(doc, name),
    }
}

fn addition_term(a: Addition) -> Term
    ensures { (result ≡ addition_term a) × SmallAddition a × (result.kind < 4) }
{
    match a {
        Addition::Nothing => Term { kind: 0, places: 0 },
        Addition::Listed(k) => Term {
            kind: 1,
            places: k as u64,
        },
        Addition::Reference { doc, name } => reference_term(doc, name),
    }
}

// A licence and an addition as numbers; that their places fit 16 bits is known of the values.
#[tactic(auto, unfolding(crate::specs::Terms::terms_of))]
pub fn terms_of(licence: Licence, addition: Addition) -> Terms
    ensures { (result ≡ terms_of licence addition) × SmallLicence licence × SmallAddition addition }
{
    let l = licence_term(licence);
    let a = addition_term(addition);
    Terms {
        kinds: l.kind + a.kind * 4,
        licence: l.places,
        addition: a.places,
    }
}

// Are the names of two references the same bytes?
#[tactic(auto, unfolding(crate::specs::Terms::same_names))]
fn same_names(f: &[u8], x: u64, s: &[u8], y: u64) -> bool
    ensures { result ≡ same_names f.now s.now x y }
{
    text::equal_part(
        f,
        (x % 0x1_0000) as usize,
        (x / 0x1_0000 % 0x1_0000) as usize,
        s,
        (y % 0x1_0000) as usize,
        (y / 0x1_0000 % 0x1_0000) as usize,
    )
}

// And their document parts, whose places stand above those of the names?
fn same_documents(f: &[u8], x: u64, s: &[u8], y: u64) -> bool
    ensures { result ≡ same_documents f.now s.now x y }
{
    same_names(f, x / 0x1_0000_0000, s, y / 0x1_0000_0000)
}

// Are two of a kind the same?
fn same_term(kind: u8, f: &[u8], x: u64, s: &[u8], y: u64) -> bool
    ensures { result ≡ same_term f.now s.now kind x y }
{
    if kind == 0 {
        return true;
    }
    if kind == 1 {
        return x == y;
    }
    if !same_names(f, x, s, y) {
        return false;
    }
    if kind == 2 {
        return true;
    }
    same_documents(f, x, s, y)
}

fn same_terms(f: &[u8], a: Terms, s: &[u8], b: Terms) -> bool
    ensures { result ≡ same_terms f.now s.now a b }
{
    if a.kinds != b.kinds {
        return false;
    }
    same_term(a.kinds % 4, f, a.licence, s, b.licence)
        && same_term(a.kinds / 4, f, a.addition, s, b.addition)
}

// Does the licensee a of the file f satisfy the leaf b of the text s?
#[tactic(auto, unfolding(crate::specs::Terms::meets))]
pub fn satisfies(f: &[u8], a: Terms, s: &[u8], b: Terms) -> bool
    ensures { result ≡ meets f.now s.now a b }
{
    same_terms(f, a, s, b)
}

// Are two licensees of the file f equal?
pub fn equals(f: &[u8], a: Terms, b: Terms) -> bool
    ensures { result ≡ same_terms f.now f.now a b }
{
    same_terms(f, a, f, b)
}

// Is the count at most 64, and are the contents whole?
fn has_contents(file: &[u8]) -> bool
    ensures { result ≡ contents file.now }
{
    if file.len() < 1 {
        return false;
    }
    let c = file[0] as usize;
    if 64 < c {
        return false;
    }
    1 + 4 * c <= file.len()
}

// The c entries of a file whose contents are whole, in blank terms that are lent, so that no array is copied on the way.
fn read_entries(file: &[u8], c: usize, terms: &mut [Terms; 64]) -> Result<usize, Refusal>
    requires { (c ≤ 64) × (1 + 4 * c ≤ length file.now) × (terms.old ≡ replicate 64 blank) }
    ensures { (told result terms.new ≡ accepted_of (entries_from file.now c 0 (1 + 4 * c))) × SmallList (entries_from file.now c 0 (1 + 4 * c)) }
{
    let mut a = 1 + 4 * c;
    for i in 0..c {
        let n = get16(file, 3 + 4 * i);
        let l = offer(file, i, a, n)?;
        terms[i] = terms_of(l.licence, l.addition);
        a += n;
    }
    if a != file.len() {
        return Err(Refusal::BadList(254));
    }
    Ok(c)
}

// The entries of a file, in blank terms that are lent: how many.
fn read_into(file: &[u8], terms: &mut [Terms; 64]) -> Result<usize, Refusal>
    requires { terms.old ≡ replicate 64 blank }
    ensures { (told result terms.new ≡ accepted_of (list_of file.now)) × SmallList (list_of file.now) }
{
    if has_contents(file) {
        read_entries(file, file[0] as usize, terms)
    } else {
        Err(Refusal::BadList(255))
    }
}

// The licensees of a file as numbers: for who looks for some of them.
pub fn read(file: &[u8]) -> Result<Accepted, Refusal>
    ensures { (result ≡ accepted_of (list_of file.now)) × SmallList (list_of file.now) }
{
    let mut terms = [BLANK; 64];
    let count = read_into(file, &mut terms)?;
    Ok(Accepted { count, terms })
}

// How many entries a list file has, or what is wrong with it.
pub fn check(file: &[u8]) -> Result<usize, Refusal>
    ensures { result ≡ checked_of (list_of file.now) }
{
    let mut terms = [BLANK; 64];
    let count = read_into(file, &mut terms)?;
    Ok(count)
}

// Where the body of an entry stands in the file: nowhere, at its start, where the file is wrong or has no such entry.
pub fn place(file: &[u8], i: usize) -> Span
    ensures { result ≡ place_of file.now i }
{
    let Ok(c) = check(file) else {
        return Span { start: 0, end: 0 };
    };
    if c <= i {
        return Span { start: 0, end: 0 };
    }
    let from = get16(file, 1 + 4 * i);
    let n = get16(file, 3 + 4 * i);
    Span {
        start: from,
        end: from + n,
    }
}

// The body of an entry as a part of the file itself; an empty part where the file is wrong or has no such entry.
pub fn entry(file: &[u8], i: usize) -> &[u8]
    ensures { (result.now ≡ entry_of file.now i)
        × (result.ref_ptr.0 ≡ file.entry.ref_ptr.0) × (result.ref_ptr.1 ≡ entry_at file.now i + file.entry.ref_ptr.1) }
{
    let p = place(file, i);
    let from = p.start;
    let to = p.end;
    &file[from..to]
}
