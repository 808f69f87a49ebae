// What C and Rust link: every entry point as an exported function. Each answers one number (specs/Answers), writes only into what it is lent, and
// nothing there unless it answers.
#![tactic(auto)]

ghost use Rattle.std.specs.Prelude.{◌≡◌, length, ◌<◌, ◌≤◌, Ok};
ghost use Rattle.names.specs.Layout.{rows, name_at};
ghost use Rattle.mode.specs.Modes.{mode_of};
ghost use Rattle.lexer.specs.Lex.{step_of};
ghost use Rattle.grammar.specs.Grammar.{parse_of, answer_of};
ghost use Rattle.canonical.specs.Canonical as Canonical;
ghost use Rattle.licensee.specs.Offers.{list_of, checked_of, place_of};
ghost use Rattle.minimize.specs.Minimize.{choice_of, listing_of, places_of, found_answer, found_buffer};
ghost use Rattle.packed.specs.Packed.{parse_as, parse_cells};
ghost use Rattle.terminal.specs.Answers.{step_as, step_record, canonical_as, list_as, entry_as, choice_as, choice_number, listing_as, listing_numbers, found_as, name_in, name_as, name_bytes};

use canonical::Answer;
use minimize::{Choice, Listing};
use mode::Mode;
use names::table::{EXCEPTIONS, LICENCES};
use packed::{cells, pack};
use parser::Nodes;

// The token at a place, as a record.
#[unsafe(no_mangle)]
pub extern "C" fn tasgilfrem_step(text: &[u8], mode: u8, place: usize, out: &mut [u16; 10]) -> u64
    ensures { (result ≡ step_as (step_of text.now (mode_of mode) place))
        × (out.new ≡ step_record (step_of text.now (mode_of mode) place) out.old) }
{
    match reader::step_at(text, Mode::from(mode), place) {
        Ok(Some(got)) => {
            *out = cells::of_token(got.token, got.span, got.next.at);
            pack::answered(1, 0)
        }
        Ok(None) => pack::answered(0, 0),
        Err(r) => pack::refused(r),
    }
}

// Writes the nodes of a text that reads to the front of what is lent.
fn put_nodes(p: &Nodes, out: &mut [u16]) -> u64
    requires { (p.now.count ≤ 127) × (length p.now.nodes ≡ 127) }
    ensures { (result ≡ parse_as (Ok p.now) out.old) × (out.new ≡ parse_cells (Ok p.now) out.old) }
{
    let count = p.count;
    if out.len() < count * 16 {
        return pack::small(count);
    }
    cells::put_nodes(&p.nodes[..count], out);
    pack::answered(0, count)
}

// The nodes of a text in postfix, sixteen cells each, in the front of what is lent.
#[unsafe(no_mangle)]
pub extern "C" fn tasgilfrem_parse(text: &[u8], mode: u8, out: &mut [u16]) -> u64
    ensures { (result ≡ parse_as (answer_of (parse_of text.now (mode_of mode))) out.old)
        × (out.new ≡ parse_cells (answer_of (parse_of text.now (mode_of mode))) out.old) }
{
    // a reference, so that the nodes are not copied out of the answer
    match &parser::parse(text, Mode::from(mode)) {
        Ok(p) => put_nodes(p, out),
        Err(r) => pack::refused(*r),
    }
}

// The canonical text, in the front of what is lent.
#[unsafe(no_mangle)]
pub extern "C" fn tasgilfrem_canonical(text: &[u8], out: &mut [u8]) -> u64
    ensures { (result ≡ canonical_as (Canonical.answer_of text.now out.old (Canonical.canonical_of text.now)))
        × (out.new ≡ Canonical.buffer_of text.now out.old (Canonical.canonical_of text.now)) }
{
    match canonical::canonical(text, out) {
        Ok(Answer::Unchanged) => pack::answered(0, 0),
        Ok(Answer::Written(n)) => pack::answered(1, n),
        Err(r) => pack::refused(r),
    }
}

// How many entries a list file has.
#[unsafe(no_mangle)]
pub extern "C" fn tasgilfrem_list(file: &[u8]) -> u64
    ensures { result ≡ list_as (checked_of (list_of file.now)) }
{
    match licensee::check(file) {
        Ok(n) => pack::answered(0, n),
        Err(r) => pack::refused(r),
    }
}

// Where the body of an entry stands in the caller's own file.
#[unsafe(no_mangle)]
pub extern "C" fn tasgilfrem_entry(file: &[u8], index: usize) -> u64
    ensures { result ≡ entry_as (place_of file.now index) }
{
    let place = licensee::place(file, index);
    let n = place.end - place.start;
    if n == 0 {
        return 0;
    }
    0x100 + pack::two_places(place.start, n)
}

// The least set of found licensees that satisfies the text.
#[unsafe(no_mangle)]
pub extern "C" fn tasgilfrem_choice(
    text: &[u8],
    mode: u8,
    file: &[u8],
    budget: u64,
    out: &mut u64,
) -> u64
    ensures { (result ≡ choice_as (choice_of text.now (mode_of mode) file.now budget))
        × (out.new ≡ choice_number (choice_of text.now (mode_of mode) file.now budget) out.old) }
{
    match minimize::choice(text, Mode::from(mode), file, budget) {
        Ok(Choice::Mask(m)) => {
            *out = m;
            pack::answered(0, 0)
        }
        Ok(Choice::Paused(p)) => {
            *out = p;
            pack::answered(1, 0)
        }
        Err(r) => pack::refused(r),
    }
}

// The next set, from a cursor on, that satisfies the text and loses that if any member is taken out; and the next cursor.
#[unsafe(no_mangle)]
pub extern "C" fn tasgilfrem_listing(
    text: &[u8],
    mode: u8,
    file: &[u8],
    cursor: u64,
    budget: u64,
    out: &mut [u64; 2],
) -> u64
    ensures { (result ≡ listing_as (listing_of text.now (mode_of mode) file.now cursor budget))
        × (out.new ≡ listing_numbers (listing_of text.now (mode_of mode) file.now cursor budget) out.old) }
{
    match minimize::listing(text, Mode::from(mode), file, cursor, budget) {
        Ok(Listing::Found { mask, next }) => {
            *out = [mask, next];
            pack::answered(0, 0)
        }
        Ok(Listing::Paused(next)) => {
            *out = [0, next];
            pack::answered(1, 0)
        }
        Ok(Listing::Finished(next)) => {
            *out = [0, next];
            pack::answered(2, 0)
        }
        Err(r) => pack::refused(r),
    }
}

// The list's entries of the found licensees, in the front of what is lent: bit 0 of a mask is the first.
#[unsafe(no_mangle)]
pub extern "C" fn tasgilfrem_found(text: &[u8], mode: u8, file: &[u8], out: &mut [u8; 30]) -> u64
    ensures { (result ≡ found_as (found_answer (places_of text.now (mode_of mode) file.now)))
        × (out.new ≡ found_buffer (places_of text.now (mode_of mode) file.now) out.old) }
{
    match minimize::found(text, Mode::from(mode), file, out) {
        Ok(k) => pack::answered(0, k),
        Err(r) => pack::refused(r),
    }
}

// Writes the name k of the table to the front of what is lent.
fn put_name(k: usize, out: &mut [u8]) -> u64
    requires { k < length rows }
    ensures { (result ≡ name_as (name_at k) out.old) × (out.new ≡ name_bytes (name_at k) out.old) }
{
    let n = names::name_len(k);
    if out.len() < n {
        return pack::small(n);
    }
    names::put_name(k, out, 0);
    pack::answered(0, n)
}

// A listed name: of the licences where the part is 0, else of the exceptions.
#[unsafe(no_mangle)]
pub extern "C" fn tasgilfrem_name(part: u8, place: usize, out: &mut [u8]) -> u64
    ensures { (result ≡ name_as (name_in part place) out.old)
        × (out.new ≡ name_bytes (name_in part place) out.old) }
{
    if part == 0 {
        if place < LICENCES {
            return put_name(place, out);
        }
        return pack::answered(0, 0);
    }
    if place < EXCEPTIONS - LICENCES {
        return put_name(LICENCES + place, out);
    }
    pack::answered(0, 0)
}
