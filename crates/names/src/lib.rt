// The names that the terminal knows, and their lookup.
#![tactic(auto)]

ghost use Rattle.std.specs.Prelude.{◌≡◌, ◌+◌, ◌*◌, ◌^◌, ◌<◌, ◌≤◌, get_or, length, drop};
ghost use Rattle.text.specs.Text.{begins};
ghost use Rattle.text.specs.Overlay.{overlay};
ghost use Rattle.names.specs.Order.{order, Ascending};
ghost use Rattle.names.specs.Listed.{table_bytes};
ghost use Rattle.names.specs.Layout.{rows, table_of, texts, part, name_at, start_at, mark_at, flag_of, partner_of, after_of};
ghost use Rattle.names.specs.Lookup.{lookup, licence_of, exception_of, imprecise_of, deprecated_of, gnu_of, is_later, later_of, only_of};

pub mod table;

use std::cmp::Ordering;
use table::{EXCEPTIONS, LICENCES, NAMES};

// What a licence's mark holds: three flags, a bit each, and from two units on how far its partners stand after it.
const DEPRECATED: usize = 1;

const GNU: usize = 2;

const OR_LATER: usize = 4;

const LATER: usize = 8;

const ONLY: usize = 128;

// An imprecise name that begins a text: the licence that it stands for, and its length.
#[derive(Clone, Copy)]
pub struct Loose {
    pub licence: usize,
    pub len: usize,
}

// The byte at place i of the table.
#[tactic(auto, using(crate::proofs::LayoutLaws::cell_at, crate::proofs::LayoutLaws::cell_low))]
fn cell(i: usize) -> u8
    requires { i < table_bytes }
    ensures { result ≡ get_or (table_of rows) i 0 }
{
    // shifted in a register, since the lookups read it for each name: an index among the bytes would take them through memory
    (table::table()[i / 8] >> (8 * (i % 8))).to_le_bytes()[0]
}

// The two bytes from place i of the table on as one number, the low byte first.
fn pair(i: usize) -> usize
    requires { i + 1 < table_bytes }
    ensures { result ≡ get_or (table_of rows) i 0 + 256 * get_or (table_of rows) (i + 1) 0 }
{
    u16::from_le_bytes([cell(i), cell(i + 1)]) as usize
}

// Where the name k starts.
#[tactic(auto, using(crate::proofs::LayoutLaws::directory_fits, crate::proofs::LayoutLaws::start_at_lem))]
fn start(k: usize) -> usize
    requires { k < length rows }
    ensures { result ≡ start_at k }
{
    pair(5 * k)
}

// How long the name k is.
#[tactic(auto, using(crate::proofs::LayoutLaws::directory_fits, crate::proofs::LayoutLaws::length_at))]
fn len(k: usize) -> usize
    requires { k < length rows }
    ensures { result ≡ length (name_at k) }
{
    cell(5 * k + 2) as usize
}

// The mark of the name k.
#[tactic(auto, using(crate::proofs::LayoutLaws::directory_fits, crate::proofs::LayoutLaws::mark_at_lem))]
fn mark(k: usize) -> usize
    requires { k < length rows }
    ensures { result ≡ mark_at k }
{
    pair(5 * k + 3)
}

// How a run of bytes stands to the name k.
fn compare(run: &[u8], k: usize) -> Ordering
    requires { k < length rows }
    ensures { result ≡ order run.now (name_at k) }
{
    let at = start(k);
    let n = len(k);
    for i in 0..n {
        if run.len() <= i {
            return Ordering::Less;
        }
        let b = run[i];
        let x = cell(at + i);
        if b < x {
            return Ordering::Less;
        }
        if x < b {
            return Ordering::Greater;
        }
    }
    if n < run.len() {
        Ordering::Greater
    } else {
        Ordering::Equal
    }
}

// The place of a run among the names from one place up to another: a name of another length is passed by unread, and the walk ends at the
// first of the run's length that is not before it.
fn find(run: &[u8], from: usize, to: usize) -> Option<usize>
    requires { (from ≤ to) × (to ≤ length rows) × Ascending (texts (part from to)) }
    ensures { result ≡ lookup (texts (part from to)) run.now }
{
    for k in from..to {
        if len(k) == run.len() {
            match compare(run, k) {
                Ordering::Equal => return Some(k - from),
                Ordering::Less => return None,
                Ordering::Greater => {}
            }
        }
    }
    None
}

// The licence that a run of bytes names.
pub fn licence(run: &[u8]) -> Option<usize>
    ensures { result ≡ licence_of run.now }
{
    find(run, 0, LICENCES)
}

// The exception that a run of bytes names.
pub fn exception(run: &[u8]) -> Option<usize>
    ensures { result ≡ exception_of run.now }
{
    find(run, LICENCES, EXCEPTIONS)
}

// Does the name k begin s?
fn begins(k: usize, s: &[u8]) -> bool
    requires { k < length rows }
    ensures { result ≡ begins (name_at k) s.now }
{
    let from = start(k);
    for i in 0..len(k) {
        if s.len() <= i {
            return false;
        }
        if cell(from + i) != s[i] {
            return false;
        }
    }
    true
}

// The longest imprecise name that begins the text at a place: of two that do, the longer stands later, so the walk goes down.
pub fn imprecise(s: &[u8], at: usize) -> Option<Loose>
    ensures { result ≡ imprecise_of (drop at s.now) }
{
    let rest = text::cut(s, at, s.len());
    for k in (EXCEPTIONS..NAMES).rev() {
        if begins(k, rest) {
            return Some(Loose {
                licence: mark(k),
                len: len(k),
            });
        }
    }
    None
}

// Does the licence k have a flag in its mark?
fn has(k: usize, flag: usize) -> bool
    requires { 0 < flag }
    ensures { result ≡ flag_of k flag }
{
    if k < LICENCES {
        mark(k) / flag % 2 == 1
    } else {
        false
    }
}

// Is the licence k deprecated?
pub fn deprecated(k: usize) -> bool
    ensures { result ≡ deprecated_of k }
{
    has(k, DEPRECATED)
}

// Is the licence k a GNU name?
pub fn gnu(k: usize) -> bool
    ensures { result ≡ gnu_of k }
{
    has(k, GNU)
}

// Is the licence k a GNU name that ends in "-or-later"?
pub fn is_later(k: usize) -> bool
    ensures { result ≡ is_later k }
{
    has(k, OR_LATER)
}

// The place that is some places after k, if it is any.
fn after(k: usize, places: usize) -> Option<usize>
    requires { k + places < 2 ^ 64 }
    ensures { result ≡ after_of k places }
{
    if places == 0 { None } else { Some(k + places) }
}

// The partner of the licence k whose distance stands in its mark from a unit on.
fn partner(k: usize, unit: usize) -> Option<usize>
    requires { 0 < unit }
    ensures { result ≡ partner_of k unit }
{
    if k < LICENCES {
        after(k, mark(k) / unit % 16)
    } else {
        None
    }
}

// The "-or-later" name of the GNU licence k, without "-only" first.
pub fn later(k: usize) -> Option<usize>
    ensures { result ≡ later_of k }
{
    partner(k, LATER)
}

// The "-only" name of the bare GNU licence k.
pub fn only(k: usize) -> Option<usize>
    ensures { result ≡ only_of k }
{
    partner(k, ONLY)
}

// How long the name k of the table is: licences, then exceptions, then imprecise names.
#[tactic(auto, using(crate::proofs::LayoutLaws::counts, crate::proofs::LayoutLaws::unnamed))]
pub fn name_len(k: usize) -> usize
    ensures { result ≡ length (name_at k) }
{
    if k < NAMES { len(k) } else { 0 }
}

// The byte i of the name k of the table, 0 past its end.
pub fn name_byte(k: usize, i: usize) -> u8
    ensures { result ≡ get_or (name_at k) i 0 }
{
    if i < name_len(k) {
        cell(start(k) + i)
    } else {
        0
    }
}

// Writes the name k of the table into a buffer from a place on, and answers the place behind it.
pub fn put_name(k: usize, out: &mut [u8], at: usize) -> usize
    requires { (k < length rows) × (at + length (name_at k) ≤ length out.old) }
    ensures { (result ≡ at + length (name_at k)) × (out.new ≡ overlay at (name_at k) out.old) }
{
    let from = start(k);
    let n = len(k);
    for i in 0..n {
        out[at + i] = cell(from + i);
    }
    at + n
}
