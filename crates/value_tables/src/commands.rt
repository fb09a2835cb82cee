//! Words, numbers and files of a command line.

use crate::devices::{shelf, shelf_said};
use crate::links::numbers;
use cli_base::{
    FileStop, are_words, count_plain, first_word, load, number_in, plain, say_stop, stop_of,
};
use krb_files::{FileRefusal, FileWhy};
use sec_base::{MemSink, Text};
use std::alloc::Global;
use table_rows::{Cells, Said};

/// The names of the options that the words may have.
const NAMES: [&str; 2] = ["--log", "--bind"];

/// Adds a word, and answers whether it could.
fn is_added(alloc: Global, words: &mut Vec<Text>, word: &str) -> bool {
    match Text::of(alloc, word) {
        Ok(word) => words.push(word).is_ok(),
        Err(_) => false,
    }
}

/// The words of the next cell, with commas between them.
fn words(cells: &mut Cells<'_>) -> Vec<Text> {
    let alloc = cells.alloc();
    let mut words = Vec::new(alloc);
    for word in cells.word().split(',') {
        let is_added = is_added(alloc, &mut words, word);
        cells.expect(is_added);
    }
    words
}

/// Says the plain words, `-` where there is none.
fn plains(said: &mut Said, words: &[Text]) {
    if plain(words, 0).is_none() {
        said.word("-");
    }
    for number in 0..words.len() {
        if let Some(word) = plain(words, number) {
            said.listed(number);
            said.word(word);
        }
    }
}

/// Whether words are well formed, then the first one, and the plain ones and their count.
pub fn sorted(cells: &mut Cells<'_>, said: &mut Said) {
    let words = words(cells);
    let words = words.as_slice();
    said.form(&are_words(words, &NAMES));
    said.word(first_word(words).unwrap_or("-"));
    plains(said, words);
    said.number(count_plain(words) as u64);
}

/// The number of a text, by the cells text, least and greatest.
pub fn number(cells: &mut Cells<'_>, said: &mut Said) {
    let (text, least, most) = (cells.text(), cells.word_number(), cells.word_number());
    match number_in(text.as_str(), least, most) {
        Some(number) => said.number(number as u64),
        None => said.word("None"),
    }
}

/// Says why a file can't be used, with its place where it has one.
fn stop_said(said: &mut Said, stop: FileStop) {
    match stop {
        FileStop::Bad { at } => {
            said.word("Bad");
            said.join(":");
            said.number(at as u64);
        }
        stop => said.form(&stop),
    }
}

/// The octets of a file, and the names that were asked, by the cells files, numbers of the calls that fail, and name.
pub fn file(cells: &mut Cells<'_>, said: &mut Said) {
    let mut shelf = shelf(cells);
    match load(cells.alloc(), &mut shelf, cells.word()) {
        Ok(octets) => said.octets(octets.as_slice()),
        Err(stop) => stop_said(said, stop),
    }
    shelf_said(said, &shelf);
}

/// Why a file can't be used, by its name, or by the place at which a reader refused it.
fn stop_in(cells: &mut Cells<'_>) -> FileStop {
    let (why, at) = match cells.word() {
        "CannotLoad" => return FileStop::CannotLoad,
        "NoMemory" => (FileWhy::NoMemory, 0),
        place => (FileWhy::Short, cells.number_in(place) as usize),
    };
    stop_of(FileRefusal { at, why })
}

/// The status of a file that can't be used and its line, by the cells name, why, and the numbers of the writes that fail.
pub fn stopped(cells: &mut Cells<'_>, said: &mut Said) {
    let (name, stop) = (cells.word(), stop_in(cells));
    let mut sink = MemSink::new(cells.alloc(), numbers(cells));
    let status = say_stop(cells.alloc(), &mut sink, name, stop);
    said.number(status as u64);
    said.octets(sink.written());
    said.number(sink.faults());
}
