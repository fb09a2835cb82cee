//! A journal over a disk in memory.

use crate::caches::{known, repeated};
use gss_base::Mark;
use replay_journal::{Journal, JournalRefusal, JournalVerdict, MemDisk, Request, Unkept};
use sec_base::Moment;
use std::alloc::Global;
use table_rows::{Cells, Said};

/// The most marks that a cache may hold.
const MOST: u64 = 1_000_000;

/// The octets that an image has in the place of those that weren't synced: a closed gate, an open one, and neither.
const FILLERS: [u8; 3] = [0x00, 0x4a, 0xff];

/// The next part's moment, in seconds.
fn moment(cells: &mut Cells<'_>) -> Moment {
    let seconds = cells.number();
    known(cells, Moment::new(seconds, 0))
}

/// The mark of the parts `who/at`, where the octet `who` is repeated 20 times.
fn mark(parts: &mut Cells<'_>) -> Mark {
    let (who, at) = (repeated(parts), moment(parts));
    Mark { who, at }
}

/// Says a verdict: T is Taken, R and a place Repeat, S and the seconds of the greatest moment Stale, F Full, D DiskFault, C Closed, N
/// NoMemory.
fn verdict_said(said: &mut Said, verdict: JournalVerdict) {
    match verdict {
        JournalVerdict::Taken => said.word("T"),
        JournalVerdict::Repeat { place } => {
            said.word("R");
            said.join("");
            said.number(place);
        }
        JournalVerdict::Stale { greatest } => {
            said.word("S");
            said.join("");
            said.number(greatest.secs());
        }
        JournalVerdict::Full => said.word("F"),
        JournalVerdict::DiskFault => said.word("D"),
        JournalVerdict::Closed => said.word("C"),
        JournalVerdict::NoMemory => said.word("N"),
    }
}

/// The marks `now/who/at` with + between them, and whether each is in that form.
fn requests(said: &mut Said, step: &str) -> (Vec<Request>, bool) {
    let (mut asked, mut are_well) = (Vec::new(said.alloc()), true);
    for part in step.split('+') {
        let mut parts = Cells::new(said.alloc(), part, '/');
        let (now, mark) = (moment(&mut parts), mark(&mut parts));
        if asked.push(Request { now, mark }).is_err() {
            said.starve();
        }
        are_well = parts.are_well() && are_well;
    }
    (asked, are_well)
}

/// Says what a journal answers to marks that are kept together.
fn together_said(said: &mut Said, journal: &mut Journal<MemDisk>, asked: &[Request]) {
    match journal.keep_all(asked) {
        Ok(answers) => {
            for answer in answers {
                verdict_said(said, answer);
            }
        }
        Err(Unkept::Apart) => said.word("apart"),
        Err(Unkept::DiskFault) => said.word("fault"),
    }
}

/// Says what a journal answers to the marks, of which those with + between them are kept together, and answers whether each is in its form.
fn are_answered(said: &mut Said, journal: &mut Journal<MemDisk>, steps: &str) -> bool {
    let mut are_well = true;
    for step in steps.split(',') {
        let (asked, is_well) = requests(said, step);
        match asked.as_slice() {
            [one] => verdict_said(said, journal.keep(one.now, one.mark)),
            _ => together_said(said, journal, asked.as_slice()),
        }
        are_well = is_well && are_well;
    }
    are_well
}

/// A disk with these octets, whose calls of these numbers fail, in a list with commas.
fn disk(cells: &mut Cells<'_>) -> Option<MemDisk> {
    let (alloc, octets, calls) = (cells.alloc(), cells.octets(), cells.word());
    let mut failing = Vec::new(alloc);
    if calls != "-" {
        for call in calls.split(',') {
            let number = cells.number_in(call);
            failing.push(number).ok()?;
        }
    }
    MemDisk::new(alloc, octets, failing).ok()
}

/// Why a journal wasn't opened.
fn refusal_said(said: &mut Said, why: JournalRefusal) {
    said.word(match why {
        JournalRefusal::DiskFault => "fault",
        JournalRefusal::BadJournal => "bad",
        JournalRefusal::TooMany => "many",
        JournalRefusal::NoMemory => "memory",
    });
}

/// Opens a journal, says what it answers, or why it wasn't opened, and gives the disk back.
fn kept(
    cells: &mut Cells<'_>,
    said: &mut Said,
    disk: MemDisk,
    capacity: u64,
    start: Moment,
    steps: &str,
) -> Option<MemDisk> {
    if capacity == 0 || capacity > MOST {
        cells.expect(false);
        return None;
    }
    match Journal::open(cells.alloc(), disk, capacity as usize, start) {
        Ok(journal) => {
            let mut journal = journal;
            let are_well = are_answered(said, &mut journal, steps);
            cells.expect(are_well);
            Some(journal.into_disk())
        }
        Err(refused) => {
            refusal_said(said, refused.why);
            Some(refused.disk)
        }
    }
}

/// What a journal answers, by its capacity, its start, its file, the calls that fail, and the marks; then the file.
pub fn answered(cells: &mut Cells<'_>, said: &mut Said) {
    let (capacity, start) = (cells.number(), moment(cells));
    let disk = disk(cells);
    let steps = cells.word();
    if let Some(disk) = disk {
        match kept(cells, said, disk, capacity, start, steps) {
            Some(disk) => said.octets(disk.bytes()),
            None => cells.expect(false),
        }
    } else {
        said.starve();
    }
}

/// Opens what a crash leaves, and says what it answers to the same marks.
fn image_said(
    cells: &mut Cells<'_>,
    said: &mut Said,
    image: Vec<u8>,
    capacity: u64,
    start: Moment,
    steps: &str,
) {
    match MemDisk::new(cells.alloc(), image, Vec::new(cells.alloc())) {
        Ok(disk) => {
            let _disk = kept(cells, said, disk, capacity, start, steps);
        }
        Err(_) => said.starve(),
    }
}

/// What a journal answers as before, and what one answers to the same marks that is opened on each image that a crash then leaves.
pub fn left(cells: &mut Cells<'_>, said: &mut Said) {
    let (capacity, start) = (cells.number(), moment(cells));
    let disk = disk(cells);
    let steps = cells.word();
    let Some(disk) = disk else {
        return said.starve();
    };
    let Some(disk) = kept(cells, said, disk, capacity, start, steps) else {
        return cells.expect(false);
    };
    for filler in FILLERS {
        for grow in [false, true] {
            match disk.image(filler, grow) {
                Ok(image) => image_said(cells, said, image, capacity, start, steps),
                Err(_) => said.starve(),
            }
        }
    }
}
