// The found licensees, the choice and the listing.
use crate::input::Asked;
use crate::stop::Stop;
use crate::write::Out;
use crate::{phrases, show, write};
use minimize::Listing;
use std::io;

// How many masks are examined before the progress is told.
const SLICE: u64 = 1048576;

// The licensees of the list that are found: the list entry of each bit of a mask.
#[derive(Clone, Copy)]
struct Found<'a> {
    file: &'a [u8],
    entries: &'a [u8],
}

impl Found<'_> {
    // How many masks there are: at most 30 licensees are found.
    fn masks(self) -> u64 {
        (1u64 << self.entries.len().min(30)) - 1
    }

    // A licensee as the list has it.
    fn licensee(self, entry: u8, out: &mut Out) {
        show::whole(licensee::entry(self.file, entry as usize), out);
    }

    // A line for each licensee, in the order of the bits, with its number from 1 up; the label stands before the first.
    fn lines(self, out: &mut Out) {
        if self.entries.is_empty() {
            write::line(out, phrases::NOT_FOUND);
        }
        for (j, entry) in self.entries.iter().enumerate() {
            let label = if j == 0 {
                phrases::FOUND
            } else {
                phrases::MARGIN
            };
            write::count(out, label, (j + 1) as u64, phrases::SPACE);
            self.licensee(*entry, out);
            write::line_end(out);
        }
    }

    // The licensees of a set: a comma stands before each but the first.
    fn set(self, mask: u64, out: &mut Out) {
        let mut bits = mask;
        let mut before = "";
        for entry in self.entries {
            if bits % 2 == 1 {
                write::text(out, before);
                self.licensee(*entry, out);
                before = phrases::COMMA;
            }
            bits /= 2;
        }
    }
}

// How a listing ends that is not refused.
#[derive(Clone, Copy)]
enum End {
    Paused,
    Finished,
}

// A listing under way.
#[derive(Drop)]
struct Run<'a> {
    rt: &'a HostRuntime,
    asked: &'a Asked<'a>,
    found: Found<'a>,
    out: &'a mut Out,
    // the next cursor, and how many masks may still be examined
    cursor: u64,
    left: u64,
    // how many sets were found
    sets: u64,
    // the cursor that was told last
    told: u64,
}

impl Run<'_> {
    // What a found set is: the first one from the start is the choice.
    fn label(&self) -> &'static str {
        if self.asked.from != 1 {
            phrases::SET
        } else if self.sets == 0 {
            phrases::CHOICE
        } else {
            phrases::ALSO
        }
    }

    fn tell_set(&mut self, mask: u64) -> io::Result<()> {
        let label = self.label();
        write::text(self.out, label);
        self.found.set(mask, self.out);
        write::line_end(self.out);
        self.sets = self.sets.saturating_add(1);
        write::flush(self.rt, self.out)
    }

    // Tells the progress of a listing that goes on, a slice after it was told last.
    fn tell_progress(&mut self) -> io::Result<()> {
        if self.cursor.saturating_sub(self.told) < SLICE {
            return Ok(());
        }
        self.told = self.cursor;
        let examined = self.cursor.saturating_sub(1);
        write::count(self.out, phrases::EXAMINED, examined, phrases::OF);
        write::decimal(self.out, self.found.masks());
        write::text(self.out, phrases::RESUME);
        write::decimal(self.out, self.cursor);
        write::line_end(self.out);
        write::flush(&self.rt.stderr(), self.out)
    }

    // The listing comes to its next cursor, and pauses there if no more masks may be examined.
    fn come(&mut self, next: u64) -> io::Result<Option<End>> {
        self.left = self.left.saturating_sub(next.saturating_sub(self.cursor));
        self.cursor = next;
        if self.left == 0 {
            return Ok(Some(End::Paused));
        }
        self.tell_progress()?;
        Ok(None)
    }

    // One call of the listing.
    fn turn(&mut self) -> Result<Option<End>, Stop> {
        let asked = self.asked;
        let budget = self.left.min(SLICE);
        match minimize::listing(asked.text, asked.mode, asked.file, self.cursor, budget)? {
            Listing::Found { mask, next } => {
                self.tell_set(mask)?;
                Ok(self.come(next)?)
            }
            Listing::Paused(next) => Ok(self.come(next)?),
            Listing::Finished(next) => {
                self.cursor = next;
                Ok(Some(End::Finished))
            }
        }
    }

    // How many sets were found and how many masks examined, and how that ended: the cursor to go on from, where there is more.
    fn tell_end(&mut self, end: End) -> io::Result<()> {
        let examined = self.cursor.saturating_sub(self.asked.from);
        write::text(self.out, phrases::SETS);
        write::plural(
            self.out,
            self.sets,
            phrases::MINIMAL_SET,
            phrases::MINIMAL_SETS,
        );
        write::decimal(self.out, examined);
        write::text(self.out, phrases::COUNTED);
        match end {
            End::Paused => {
                write::text(self.out, phrases::GO_ON);
                write::decimal(self.out, self.cursor);
            }
            End::Finished => write::text(self.out, phrases::FINISHED),
        }
        write::line_end(self.out);
        write::flush(self.rt, self.out)
    }

    // The listing, call by call. A proved loop has to end: no run uses up the turns.
    fn list(&mut self) -> Result<(), Stop> {
        for _ in 0..u64::MAX {
            if let Some(end) = self.turn()? {
                self.tell_end(end)?;
                break;
            }
        }
        Ok(())
    }
}

// The found licensees, then the sets, if the list meets the expression: a budget of 1 is enough to know.
pub(crate) fn all(rt: &HostRuntime, asked: &Asked<'_>, out: &mut Out) -> Result<(), Stop> {
    let mut entries = [0u8; 30];
    let count = minimize::found(asked.text, asked.mode, asked.file, &mut entries)?;
    let found = Found {
        file: asked.file,
        entries: text::cut(&entries, 0, count),
    };
    found.lines(out);
    write::flush(rt, out)?;
    minimize::choice(asked.text, asked.mode, asked.file, 1)?;
    let mut run = Run {
        rt,
        asked,
        found,
        out,
        cursor: asked.from,
        left: asked.budget,
        sets: 0,
        told: asked.from,
    };
    run.list()
}
