//! What the rows of a file ask, heading by heading, and the answer to it.
use crate::plans::plan_shown;
use crate::runs::run_shown;
use anyhow::Result;
use blazes_cli::Status;
use blz_outside::{Files, MemFiles, MemSink, RealFiles, Sink};
use std::alloc::{AllocError, Global};
use worked_calls::{shown, work_shown};

// The most bytes of a file of rows, of a file beside it, and of what is written where no other room is
// given.
const TEXT_LIMIT: usize = 65_536;

/// What rows ask: files, of which the first with a name counts, and words, of the program or of the rows
/// themselves; the folder for further files, the read that fails, and the room of the sink.
#[derive(Drop)]
pub(crate) struct Question {
    files: Vec<(String, Vec<u8>)>,
    folder: String,
    words: Vec<String>,
    is_shown: bool,
    failing: u64,
    room: usize,
}

impl Question {
    /// No files and no words.
    pub(crate) fn new(alloc: Global) -> Result<Question> {
        let folder = String::from_str(alloc, ".")?;
        Ok(Question {
            files: Vec::new(alloc),
            folder,
            words: Vec::new(alloc),
            is_shown: false,
            failing: 0,
            room: TEXT_LIMIT,
        })
    }

    /// The most bytes that can be written.
    pub(crate) fn room(&self) -> usize {
        self.room
    }

    /// Holds a file, in place of another of this name.
    pub(crate) fn hold(&mut self, alloc: Global, name: &str, text: &[u8]) -> Result<()> {
        let file = (
            String::from_str(alloc, name)?,
            Vec::from_slice(alloc, text)?,
        );
        self.files.insert(0, file)?;
        Ok(())
    }

    // The bytes of a file that is held.
    fn held(&self, name: &str) -> Option<&[u8]> {
        match self.files.iter().find(|file| file.0.as_str() == name) {
            Some((_, text)) => Some(text.as_slice()),
            None => None,
        }
    }

    // Holds a file with a text so many times behind what it has.
    fn hold_more(&mut self, alloc: Global, count_and_name: &str, below: &str) -> Result<()> {
        let (count, name) = count_and_name.split_once(' ').unwrap_or(("0", ""));
        let more = repeated(alloc, below, count.parse::<usize>()?)?;
        let mut text = Vec::from_slice(alloc, self.held(name).unwrap_or("".as_bytes()))?;
        text.extend_from_slice(more.as_bytes())?;
        self.hold(alloc, name, text.as_slice())
    }

    // Holds a file of the folder.
    fn hold_beside(&mut self, rt: &HostRuntime, name: &str) -> Result<()> {
        let text = self.beside(rt, name)?;
        self.hold(rt.alloc(), name, text.as_slice())
    }

    // The bytes of a file of the folder.
    fn beside(&self, rt: &HostRuntime, name: &str) -> Result<Vec<u8>> {
        let path = format!(in rt.alloc(); "{}/{name}", self.folder.as_str())?;
        bytes_of(rt, path.as_str())
    }

    /// The bytes of a file that is held, or else of one of the folder.
    pub(crate) fn text_of(&self, rt: &HostRuntime, name: &str) -> Result<Vec<u8>> {
        match self.held(name) {
            Some(text) => Ok(Vec::from_slice(rt.alloc(), text)?),
            None => self.beside(rt, name),
        }
    }

    // Asks with these words, in place of others.
    fn ask(&mut self, alloc: Global, words: &str, is_shown: bool) -> Result<()> {
        self.is_shown = is_shown;
        self.words.clear();
        for word in words.split(' ') {
            self.words.push(word.replace(alloc, "\\n", "\n")?)?;
        }
        Ok(())
    }

    /// Heeds a heading that doesn't ask for an answer, with the text below it; false where there is no such
    /// heading.
    pub(crate) fn heed(
        &mut self,
        rt: &HostRuntime,
        heading: (&str, &str),
        below: &str,
    ) -> Result<bool> {
        let alloc = rt.alloc();
        let (kind, rest) = heading;
        match kind {
            "file" => self.hold(alloc, rest, below.as_bytes())?,
            "from" => self.folder = String::from_str(alloc, rest)?,
            "copy" => self.hold_beside(rt, rest)?,
            "more" => self.hold_more(alloc, rest, below)?,
            "ask" => self.ask(alloc, rest, false)?,
            "show" => self.ask(alloc, rest, true)?,
            "fail" => self.failing = rest.parse::<u64>()?,
            "room" => self.room = rest.parse::<usize>()?,
            _ => return Ok(false),
        }
        Ok(true)
    }

    /// The files once more, for an answer.
    pub(crate) fn copied(&self, alloc: Global) -> Result<MemFiles, AllocError> {
        let mut files = Vec::new(alloc);
        for (name, text) in &self.files {
            let name = String::from_str(alloc, name.as_str())?;
            files.push((name, Vec::from_slice(alloc, text.as_slice())?))?;
        }
        Ok(MemFiles::new(files, vec![in alloc; self.failing]?))
    }

    /// Whether the rows themselves answer, and not the program.
    pub(crate) fn is_shown(&self) -> bool {
        self.is_shown
    }

    /// The words of the command line.
    pub(crate) fn words(&self) -> &[String] {
        &self.words
    }

    /// What the rows themselves show, and whether there was room for it.
    pub(crate) fn shown(&self, alloc: Global) -> Result<(Status, MemSink)> {
        let mut out = MemSink::new(alloc, self.room)?;
        let mut files = self.copied(alloc)?;
        let text = text_shown(alloc, &self.words, &mut files)?;
        match out.put(text.as_slice()) {
            Ok(()) => Ok((Status::Done, out)),
            Err(_) => Ok((Status::WriteFault, out)),
        }
    }
}

// What the rows show for their words: a plan, what a run leaves, or what calls give.
fn text_shown(alloc: Global, words: &[String], files: &mut MemFiles) -> Result<Vec<u8>> {
    if let Some(text) = plan_shown(alloc, words, files)? {
        return Ok(text);
    }
    if let Some(text) = run_shown(alloc, words, files)? {
        return Ok(text);
    }
    if let Some(text) = work_shown(alloc, words, files)? {
        return Ok(text);
    }
    shown(alloc, words, files)
}

// A text so many times, the first star in it being the number of the time.
fn repeated(alloc: Global, text: &str, count: usize) -> Result<String> {
    let Some((front, behind)) = text.split_once('*') else {
        return Ok(text.repeat(alloc, count)?);
    };
    let mut times = String::new(alloc);
    for number in 0..count {
        write!(times, "{front}{number}{behind}")?;
    }
    Ok(times)
}

/// The bytes of the file of this name in the folder data/.
pub(crate) fn bytes_of(rt: &HostRuntime, name: &str) -> Result<Vec<u8>> {
    let mut bytes = Vec::new(rt.alloc());
    RealFiles::new(rt.clone()?).read(name, TEXT_LIMIT, &mut bytes)?;
    Ok(bytes)
}
