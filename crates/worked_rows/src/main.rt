//! Worked rows of the program: what it writes, and with which status it ends, for words over files.
//!
//! A word of the command line names a file of rows, which stands in the folder data/. The shells for
//! modules evaluate a module anew in each step; behind `over-indexed-shells` they keep indexes, and behind
//! `over-both-kinds` they do so by turns, and the same files have to give the same.
//!
//! A line of a file that begins with `== ` is a heading, and what is below it are the lines up to the next
//! one. A line that ends with a backslash goes on in the next.
//!
//! - `== file NAME`: the lines below are the file NAME.
//! - `== from FOLDER`: `copy` and `writes` find their files in this folder of data/.
//! - `== copy NAME`: the file NAME of the folder is a file of the rows too.
//! - `== more COUNT NAME`: the lines below, so many times, stand behind those of the file NAME; the first
//!   `*` in them is the number of the time, counted from 0.
//! - `== fail NUMBER`: the read with this number fails, counted from 1; with 0 none does.
//! - `== room COUNT`: no more than so many bytes can be written.
//! - `== bench WORDS`: the bench has these shells, of `WORD*COUNT` so many, of `module` one for modules and of
//!   `plain` one that never keeps indexes, where it has four for modules and sixteen of each stock body else.
//!   It is used again from answer to answer.
//! - `== ask WORDS`: the words of the command line, with a blank between two; `\n` is the end of a line.
//! - `== show WORDS`: in place of the program these rows themselves answer, with the status Done.
//! - `== hold NAME`: what is written, asked so over the files so far, is the file NAME.
//! - `== answer STATUS`: the program, asked so over the files so far, writes the lines below, as far as
//!   there is room, and ends with this status.
//! - `== writes STATUS NAME`: it writes what the file NAME has, one of the rows or else of the folder.
//!
//! The lines in front of the first heading say what the rows show.
#![tactic(auto)]

mod plans;
mod question;
mod runs;

use crate::question::{Question, bytes_of};
use anyhow::{Result, bail};
use blazes_cli::{Status, blazes};
use bloom_index::IndexShell;
use blz_boxes::{Component, LatestShell, NumberShell, PlainShell, SplitShell};
use blz_outside::MemSink;
use std::alloc::Global;
use std::env;
use worked_calls::{PoorShell, TellingShell};

// The bench of rows that name none.
const USUAL_BENCH: &str = "module*4 split*16 latest*16 number*16";

// Which shells for modules the benches have.
#[derive(Clone, Copy)]
enum Modules {
    Plain,
    Indexed,
    Both,
}

impl Modules {
    // Whether the one at a place of a bench keeps indexes.
    fn is_indexed(self, place: usize) -> bool {
        match self {
            Modules::Plain => false,
            Modules::Indexed => true,
            Modules::Both => place % 2 == 0,
        }
    }
}

// How many rows were answered, and how many of them as they say.
#[derive(Clone, Copy)]
struct Count {
    right: u64,
    all: u64,
}

impl Count {
    // Counts a row that was compared, if one was.
    fn add(&mut self, found: Option<bool>) {
        self.all = self.all.wrapping_add(found.is_some() as u64);
        self.right = self.right.wrapping_add((found == Some(true)) as u64);
    }
}

// The rows that share a bench: the words of its shells, and the headings, each with the text below it.
#[derive(Drop)]
struct Group<'a> {
    shells: &'a str,
    sections: Vec<(&'a str, String)>,
}

// Adds a line of a text of rows, which may be a heading.
fn add_line<'a>(alloc: Global, groups: &mut Vec<Group<'a>>, line: &'a str) -> Result<()> {
    if let Some(shells) = line.strip_prefix("== bench ") {
        let sections = Vec::new(alloc);
        groups.push(Group { shells, sections })?;
    } else if let Some(group) = groups.last_mut() {
        if let Some(heading) = line.strip_prefix("== ") {
            group.sections.push((heading, String::new(alloc)))?;
        } else if let Some((_, below)) = group.sections.last_mut() {
            push_line(line, below)?;
        }
    }
    Ok(())
}

// The rows of a text by their benches; the first is the usual one.
fn groups_of(alloc: Global, text: &str) -> Result<Vec<Group<'_>>> {
    let mut groups = Vec::new(alloc);
    groups.push(Group {
        shells: USUAL_BENCH,
        sections: Vec::new(alloc),
    })?;
    for line in text.lines() {
        add_line(alloc, &mut groups, line)?;
    }
    Ok(groups)
}

// Adds a line with its end, or without one where it goes on in the next.
fn push_line(line: &str, text: &mut String) -> Result<()> {
    if let Some(front) = line.strip_suffix('\\') {
        text.push_str(front)?;
    } else {
        text.push_str(line)?;
        text.push('\n')?;
    }
    Ok(())
}

// Whether what was answered has this status and this text, as far as there is room; one that differs is
// shown.
fn is_right(
    rt: &HostRuntime,
    room: usize,
    answered: &(Status, MemSink),
    status: &str,
    text: &[u8],
) -> Result<bool> {
    let (ended, out) = answered;
    let ended = format!(in rt.alloc(); "{ended:?}")?;
    let front = text.get(..room).unwrap_or(text);
    let is_right = ended.as_str() == status && out.bytes() == front;
    if !is_right {
        let written = str::from_utf8(out.bytes()).unwrap_or("bytes that are no text\n");
        println!(rt; "not {status} but {ended}:\n{written}")?;
    }
    Ok(is_right)
}

// Whether what was answered is as a heading says; where it says `hold`, it is held, and nothing is compared.
fn compared(
    rt: &HostRuntime,
    asked: &mut Question,
    answered: &(Status, MemSink),
    heading: (&str, &str),
    below: &str,
) -> Result<Option<bool>> {
    match heading {
        ("hold", name) => {
            asked.hold(rt.alloc(), name, answered.1.bytes())?;
            Ok(None)
        }
        ("writes", rest) => {
            let (status, name) = rest.split_once(' ').unwrap_or((rest, ""));
            let text = asked.text_of(rt, name)?;
            Ok(Some(is_right(rt, asked.room(), answered, status, text.as_slice())?))
        }
        (_, status) => Ok(Some(is_right(rt, asked.room(), answered, status, below.as_bytes())?)),
    }
}

// Whether a heading asks for an answer.
fn asks(kind: &str) -> bool {
    matches!(kind, "answer" | "writes" | "hold")
}

// Heeds a heading that asks for none.
fn heed(rt: &HostRuntime, asked: &mut Question, heading: (&str, &str), below: &str) -> Result<()> {
    if !asked.heed(rt, heading, below)? {
        println!(rt; "no heading: {}", heading.0)?;
    }
    Ok(())
}

// The words of the shells of a bench, each once.
fn shell_words(alloc: Global, shells: &str) -> Result<Vec<&str>> {
    let mut all = Vec::new(alloc);
    for words in shells.split(' ') {
        let (word, count) = words.split_once('*').unwrap_or((words, "1"));
        for _ in 0..count.parse::<usize>()? {
            all.push(word)?;
        }
    }
    Ok(all)
}

// Counts the rows that share a bench. Who owns a bench makes its shells and asks the program itself: no
// function hands one out.
fn count_group(
    rt: &HostRuntime,
    modules: Modules,
    group: &Group<'_>,
    asked: &mut Question,
    count: &mut Count,
) -> Result<()> {
    let alloc = rt.alloc();
    let words = shell_words(alloc, group.shells)?;
    let mut bench: Vec<Box<dyn Component>> = Vec::new(alloc);
    for word in &words {
        match *word {
            "module" if modules.is_indexed(bench.len()) => {
                bench.push(Box::new(alloc, IndexShell::new(alloc))?)?;
            }
            "module" | "plain" => bench.push(Box::new(alloc, PlainShell::new(alloc))?)?,
            "split" => bench.push(Box::new(alloc, SplitShell::new(alloc))?)?,
            "latest" => bench.push(Box::new(alloc, LatestShell::new(alloc))?)?,
            "number" => bench.push(Box::new(alloc, NumberShell::new(alloc))?)?,
            "telling" => bench.push(Box::new(alloc, TellingShell::new(alloc))?)?,
            "poor" => bench.push(Box::new(alloc, PoorShell::new(PlainShell::new(alloc)))?)?,
            "poor-split" => bench.push(Box::new(alloc, PoorShell::new(SplitShell::new(alloc)))?)?,
            _ => bail!("no shell is {word}"),
        }
    }
    for (heading, below) in &group.sections {
        let heading = heading.split_once(' ').unwrap_or((*heading, ""));
        if !asks(heading.0) {
            heed(rt, asked, heading, below.as_str())?;
            continue;
        }
        let answered = if asked.is_shown() {
            asked.shown(alloc)?
        } else {
            let mut files = asked.copied(alloc)?;
            let mut out = MemSink::new(alloc, asked.room())?;
            let status = blazes(alloc, asked.words(), &mut files, &mut out, &mut bench);
            (status, out)
        };
        count.add(compared(rt, asked, &answered, heading, below.as_str())?);
    }
    Ok(())
}

// How many of the rows of a file are as it says, and how many it has.
fn count_rows(rt: &HostRuntime, modules: Modules, name: &str) -> Result<Count> {
    let bytes = bytes_of(rt, name)?;
    let text = str::from_utf8(bytes.as_slice())?;
    let alloc = rt.alloc();
    let mut asked = Question::new(alloc)?;
    let mut count = Count { right: 0, all: 0 };
    for group in &groups_of(alloc, text)? {
        count_group(rt, modules, group, &mut asked, &mut count)?;
    }
    Ok(count)
}

fn main(rt: HostRuntime) -> Result<()> {
    let mut modules = Modules::Plain;
    for word in env::args(&rt)?.skip(1) {
        match word.as_str() {
            "over-indexed-shells" => modules = Modules::Indexed,
            "over-both-kinds" => modules = Modules::Both,
            name => {
                let Count { right, all } = count_rows(&rt, modules, name)?;
                println!(rt; "{name}: {right} of {all} rows")?;
            }
        }
    }
    Ok(())
}
