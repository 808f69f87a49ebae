// The notice slip of an expression, or what is wrong with it, for a person: ./tasgilfrem asks for it.
#![tactic(auto)]

mod input;
mod leaf;
mod lists;
mod phrases;
mod refusals;
mod sets;
mod show;
mod slips;
mod stop;
mod tree;
mod write;

use crate::input::{Asked, Job};
use crate::stop::Stop;
use crate::write::Out;
use itoa::Buffer;
use refusal::Refusal;
use std::fs::OpenOptions;
use std::io::Write;
use std::os::unix::fs::MetadataExt;
use std::{fs, io};

// Where the caller is told a refusal's number, 0 where there is none: descriptor 3, if it is open for writing.
const STATUS: &str = "/proc/self/fd/3";

fn answer(rt: &HostRuntime, asked: &Asked<'_>, out: &mut Out) -> Result<(), Stop> {
    match asked.job {
        Job::Slip => slips::slip(rt, asked, out),
        Job::CheckList => lists::check(rt, asked.file, out),
    }
}

// A refusal: of the list file, with where it is wrong, or of the text.
fn refused(asked: &Asked<'_>, r: Refusal, out: &mut Out) {
    match r {
        Refusal::BadList(e) => lists::wrong(asked.file, r, e, out),
        _ => refusals::refused(asked.text, r, out),
    }
}

// Answers the refusal, once it is told.
fn told(rt: &HostRuntime, asked: &Asked<'_>, out: &mut Out) -> io::Result<Option<Refusal>> {
    match answer(rt, asked, out) {
        Ok(()) => Ok(None),
        Err(Stop::Refused(r)) => {
            refused(asked, r, out);
            write::flush(rt, out)?;
            Ok(Some(r))
        }
        Err(Stop::Unwritten(e)) => Err(e),
    }
}

// Its link shows the owner's leave to write where it is open for that.
fn has_status(rt: &HostRuntime) -> bool {
    match fs::symlink_metadata(rt, STATUS) {
        Ok(link) => link.mode() & 0o200 != 0,
        Err(_) => false,
    }
}

fn tell_status(rt: &HostRuntime, refused: Option<Refusal>) -> io::Result<()> {
    if !has_status(rt) {
        return Ok(());
    }
    let number = refused.map_or(0, refusal::number);
    let mut digits = Buffer::new();
    let mut status = OpenOptions::new().append(true).open(rt, STATUS)?;
    status.write_all(digits.format(number).as_bytes())
}

fn main(rt: HostRuntime) -> io::Result<()> {
    let mut room = [0u8; input::ROOM];
    let n = input::read(&rt, &mut room)?;
    let asked = Asked::of(text::cut(&room, 0, n));
    let mut out = Out::new();
    let refused = told(&rt, &asked, &mut out)?;
    tell_status(&rt, refused)
}
