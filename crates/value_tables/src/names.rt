//! Names of principals and their texts.

use gss_base::{Label, NameRefusal, Principal};
use sec_base::Text;
use table_rows::{Cells, Said};

/// Says a refusal of a name, with its place where it has one.
fn refused(said: &mut Said, refusal: NameRefusal) {
    match refusal {
        NameRefusal::Form { at } => {
            said.word("Form");
            said.number(at as u64);
        }
        NameRefusal::Zero { at } => {
            said.word("Zero");
            said.number(at as u64);
        }
        refusal => said.form(&refusal),
    }
}

/// Says the parts of a name with a comma between them, an empty one as an empty cell.
fn parts_said(said: &mut Said, parts: &[Text]) {
    for (at, part) in parts.iter().enumerate() {
        said.listed(at);
        said.hex(part.as_str().as_bytes());
    }
}

/// The parts of the next cell, `-` where there is none.
fn parts_in(cells: &mut Cells<'_>) -> Vec<Text> {
    let alloc = cells.alloc();
    let mut parts = Vec::new(alloc);
    let cell = cells.word();
    if cell != "-" {
        for part in cell.split(',') {
            let mut part = Cells::new(alloc, part, ' ');
            let is_added = parts.push(Text::from_string(part.text())).is_ok();
            cells.expect(is_added && part.are_well());
        }
    }
    parts
}

/// Says realm, parts and text form of a name that its realm and parts make again.
fn name_said(said: &mut Said, name: &Principal) {
    match Principal::new(said.alloc(), name.realm(), name.parts()) {
        Ok(again) => {
            if again != *name {
                said.word("is made otherwise");
            }
        }
        Err(_) => said.starve(),
    }
    said.word("Ok");
    said.octets(name.realm().as_bytes());
    parts_said(said, name.parts());
    said.octets(name.label().text().as_bytes());
}

/// Says a name, or why there is none.
fn name_or_refusal(said: &mut Said, read: Result<Principal, NameRefusal>) {
    match read {
        Ok(name) => name_said(said, &name),
        Err(refusal) => refused(said, refusal),
    }
}

/// The name that a text names, or why it names none.
pub fn named(cells: &mut Cells<'_>, said: &mut Said) {
    let text = cells.text();
    let read = Principal::parse(said.alloc(), text.as_str());
    name_or_refusal(said, read);
}

/// The name of the cells realm and parts, or why there is none.
pub fn made(cells: &mut Cells<'_>, said: &mut Said) {
    let (realm, parts) = (cells.text(), parts_in(cells));
    let made = Principal::new(said.alloc(), realm.as_str(), parts.as_slice());
    name_or_refusal(said, made);
}

/// The label of a text, and whether it is that of another text, by the cells of both.
pub fn labelled(cells: &mut Cells<'_>, said: &mut Said) {
    let (text, other) = (cells.text(), cells.text());
    match (Label::new(text.as_str()), Label::new(other.as_str())) {
        (Some(label), Some(other)) => {
            said.octets(label.text().as_bytes());
            said.word(if other == label { "same" } else { "another" });
        }
        (None, _) => said.word("None"),
        (Some(_), None) => cells.expect(false),
    }
}
