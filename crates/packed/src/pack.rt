// Answers as one number each.
ghost use Rattle.std.specs.Prelude.{◌≡◌, ◌+◌, ◌<◌, ◌≤◌};
ghost use Rattle.packed.specs.Packed.{clip, places, refused_as, answered_as, small_as};

use refusal::{Column, Refusal};

// Room for 24, 48 and 56 bits.
const PLACE: u64 = 0x100_0000;

const VALUE: u64 = 0x1_0000_0000_0000;

const NUMBER: u64 = 0x100_0000_0000_0000;

// A number in a field that has room for less than n: the largest where it is larger.
#[tactic(auto, unfolding(crate::specs::Packed::clip))]
fn clipped(n: u64, x: u64) -> u64
    requires { 0 < n }
    ensures { (result ≡ clip n x) × (result < n) }
{
    x.min(n - 1)
}

// Two places, behind the lowest 16 bits.
#[tactic(auto, unfolding(crate::specs::Packed::places))]
pub fn two_places(a: usize, b: usize) -> u64
    ensures { (result ≡ places a b) × (result + 0x10000 ≤ 0x10000000000000000) }
{
    clipped(PLACE, a as u64) * 0x1_0000 + clipped(PLACE, b as u64) * 0x100_0000_0000
}

// A refusal: its number, its set, its span or number.
#[tactic(auto, unfolding(crate::specs::Packed::refused_as))]
pub fn refused(r: Refusal) -> u64
    ensures { result ≡ refused_as r }
{
    let n = refusal::number(r) as u64;
    match refusal::last_column(r) {
        Column::Nothing => n,
        Column::Place(s) => n + two_places(s.start, s.end),
        Column::PlaceAndSet(s, e) => {
            n + refusal::set(e) as u64 * 0x100 + two_places(s.start, s.end)
        }
        Column::Number(x) => n + clipped(NUMBER, x) * 0x100,
    }
}

// An answer of a form, with its value.
#[tactic(auto, unfolding(crate::specs::Packed::answered_as))]
pub fn answered(form: u8, value: usize) -> u64
    ensures { result ≡ answered_as form value }
{
    form as u64 * 0x100 + clipped(VALUE, value as u64) * 0x1_0000
}

// What is lent is too small: n are needed.
#[tactic(auto, unfolding(crate::specs::Packed::small_as))]
pub fn small(n: usize) -> u64
    ensures { result ≡ small_as n }
{
    255 + clipped(NUMBER, n as u64) * 0x100
}
