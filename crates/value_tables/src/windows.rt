//! The window of a context's numbers.

use seq_window::{Verdict, Window};
use table_rows::{Cells, Said};

/// The widest window.
const WIDEST: u32 = 1024;

/// Says a verdict: A is AboveMax, B and the greatest number Below, R Repeat, F Fresh.
pub fn verdict_said(said: &mut Said, verdict: Verdict) {
    match verdict {
        Verdict::AboveMax => said.word("A"),
        Verdict::Below { last } => {
            said.word("B");
            said.join("");
            said.number(last as u64);
        }
        Verdict::Repeat => said.word("R"),
        Verdict::Fresh => said.word("F"),
    }
}

/// What a window says of a number, which is marked where it is fresh.
fn take(window: &mut Window, number: u32) -> Verdict {
    let verdict = window.judge(number);
    match verdict {
        Verdict::Fresh => window.mark(number),
        _ => {}
    }
    verdict
}

/// Says what a step answers: C clears the window, L asks the greatest number, W the width, and a number is taken.
fn step(said: &mut Said, window: &mut Window, step: &str) {
    said.word(step);
    if step == "C" {
        window.clear();
        return;
    }
    said.join(":");
    match (step, step.parse::<u32>()) {
        ("L", _) => said.number(window.last() as u64),
        ("W", _) => said.number(window.width() as u64),
        (_, Ok(number)) => verdict_said(said, take(window, number)),
        _ => said.word("isn't a step"),
    }
}

/// Says what a window answers to steps.
fn steps_said(said: &mut Said, window: &mut Window, steps: &str) {
    for word in steps.split(' ') {
        let (asked, _answer) = word.split_once(':').unwrap_or((word, ""));
        step(said, window, asked);
    }
}

/// What a window answers, by its width and `step:answer` for each step.
pub fn judged(cells: &mut Cells<'_>, said: &mut Said) {
    let (width, steps) = (cells.word_number(), cells.rest().unwrap_or(""));
    if width == 0 || width > WIDEST {
        cells.expect(false);
    } else {
        match Window::new(cells.alloc(), width) {
            Ok(window) => {
                let mut window = window;
                steps_said(said, &mut window, steps);
            }
            Err(_) => said.starve(),
        }
    }
}
