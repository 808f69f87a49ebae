// What the program is asked: five numbers of 20 digits, each with one byte behind it, then the text, then the list file.
use mode::Mode;
use std::io;
use std::io::Read;

// As much of a text and of a list file as is read: more than either may have.
const MOST: usize = 65536;

// The digits of a number and the byte behind them.
const FIELD: usize = 21;

// Where the text begins.
const HEAD: usize = 105;

pub(crate) const ROOM: usize = HEAD + 2 * MOST;

// Reads what is asked, and says how many bytes it has: the input ends, or there is no more room. Each turn but the last takes a byte or more.
pub(crate) fn read(rt: &HostRuntime, asked: &mut [u8; ROOM]) -> io::Result<usize> {
    let mut input = rt.stdin();
    let mut n = 0;
    for _ in 0..ROOM {
        let got = input.read(&mut asked[n..])?;
        if got == 0 {
            break;
        }
        n += got;
    }
    Ok(n)
}

#[derive(Clone, Copy)]
pub(crate) enum Job {
    // the slip of the text
    Slip,
    // whether the list file is right
    CheckList,
}

#[derive(Clone, Copy)]
pub(crate) struct Asked<'a> {
    pub(crate) job: Job,
    pub(crate) mode: Mode,
    // the cursor that a listing begins with, and how many masks it may examine
    pub(crate) from: u64,
    pub(crate) budget: u64,
    pub(crate) text: &'a [u8],
    pub(crate) file: &'a [u8],
}

// A number with one more digit. Another byte, and a digit that would make it too large, change nothing.
fn longer(n: u64, b: u8) -> u64 {
    if !b.is_ascii_digit() {
        return n;
    }
    n.checked_mul(10)
        .and_then(|tens| tens.checked_add(u64::from(b % 16)))
        .unwrap_or(n)
}

// The number k of the five.
fn field(input: &[u8], k: usize) -> u64 {
    match input.chunks(FIELD).nth(k) {
        Some(digits) => digits.iter().take(FIELD - 1).fold(0, |n, b| longer(n, *b)),
        None => 0,
    }
}

impl<'a> Asked<'a> {
    pub(crate) fn of(input: &'a [u8]) -> Self {
        let [job, mode, from, budget, len] = [0, 1, 2, 3, 4].map(|k: usize| field(input, k));
        let end = HEAD + (len as usize).min(MOST);
        Asked {
            job: if job == 1 { Job::Slip } else { Job::CheckList },
            mode: Mode::from((mode % 32) as u8),
            from,
            budget,
            text: text::cut(input, HEAD, end),
            file: text::cut(input, end, input.len()),
        }
    }
}
