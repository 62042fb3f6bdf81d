//! A case of a table.

use crate::lines::{Line, Numbered, Unseen, line_of};
use net_types::NoMemory;
use std::alloc::Global;

/// A file of a case.
#[derive(Drop)]
pub struct CaseFile {
    pub path: String,
    pub text: String,
}

/// What is asked of a case.
#[derive(Drop)]
pub enum Asked {
    /// Nothing: it is there for its files.
    Nothing,
    /// A run of the program with these words.
    Run(String),
    /// A question of this program.
    Question(String),
}

// Which text the next line belongs to.
#[derive(Clone, Copy)]
enum Place {
    Nowhere,
    File(usize),
    Answer,
}

/// A case: what is asked of which files, and how it has to end.
#[derive(Drop)]
pub struct Case {
    /// Its name, which no other case of the table has.
    pub name: String,
    /// A run, or a question.
    pub asked: Asked,
    /// Its files, no two of one path.
    pub files: Vec<CaseFile>,
    /// The calls of the files that fail, counted from 1.
    pub failing: Vec<u64>,
    /// The calls of the output that fail, counted from 1.
    pub failing_writes: Vec<u64>,
    /// How many bytes the output takes.
    pub room: u64,
    /// The status that it has to end with.
    pub wanted: Option<u64>,
    /// The text that it has to end with.
    pub answer: String,
    /// The first line that is none of a table's, or stands where it may not.
    pub misread: Option<String>,
    place: Place,
}

fn push_line(text: &mut String, line: &str) -> Result<(), NoMemory> {
    text.push_str(line)?;
    text.push_str("\n")?;
    Ok(())
}

impl Case {
    /// A case without files of which nothing is asked.
    pub fn new(alloc: Global, name: &str) -> Result<Case, NoMemory> {
        Ok(Case {
            name: String::from_str(alloc, name)?,
            asked: Asked::Nothing,
            files: Vec::new(alloc),
            failing: Vec::new(alloc),
            failing_writes: Vec::new(alloc),
            room: 1_000_000,
            wanted: None,
            answer: String::new(alloc),
            misread: None,
            place: Place::Nowhere,
        })
    }

    /// Keeps the line as one that is misread, if it is the first.
    pub fn misread(&mut self, alloc: Global, line: &str) -> Result<(), NoMemory> {
        if self.misread.is_none() {
            self.misread = Some(String::from_str(alloc, line)?);
        }
        Ok(())
    }

    // Opens the file of this path, a new one where there is none.
    fn open_file(&mut self, alloc: Global, path: &str) -> Result<(), NoMemory> {
        let place = self
            .files
            .iter()
            .position(|file| file.path.as_str() == path);
        self.place = Place::File(place.unwrap_or(self.files.len()));
        if place.is_none() {
            self.files.push(CaseFile {
                path: String::from_str(alloc, path)?,
                text: String::new(alloc),
            })?;
        }
        Ok(())
    }

    // Puts a line behind the open text. Where none is open, it has to be a comment.
    fn add_line(&mut self, alloc: Global, line: &str) -> Result<(), NoMemory> {
        match self.place {
            Place::Nowhere if line.is_empty() || line.starts_with('#') => Ok(()),
            Place::Nowhere => self.misread(alloc, line),
            Place::File(place) => match self.files.get_mut(place) {
                Some(file) => push_line(&mut file.text, line),
                None => Ok(()),
            },
            Place::Answer => push_line(&mut self.answer, line),
        }
    }

    // Takes a line of text. An empty one ends an answer.
    fn take_text(&mut self, alloc: Global, line: &str) -> Result<(), NoMemory> {
        match self.place {
            Place::Answer if line.is_empty() => {
                self.place = Place::Nowhere;
                Ok(())
            }
            _ => self.add_line(alloc, line),
        }
    }

    // Takes the last byte of the open text away, which is the line feed of its last line, and closes it. Where there is
    // none, the line is misread.
    fn end_line(&mut self, alloc: Global, line: &str) -> Result<(), NoMemory> {
        let last = match self.place {
            Place::Nowhere => None,
            Place::File(place) => match self.files.get_mut(place) {
                Some(file) => file.text.pop(),
                None => None,
            },
            Place::Answer => self.answer.pop(),
        };
        self.place = Place::Nowhere;
        match last {
            Some(_) => Ok(()),
            None => self.misread(alloc, line),
        }
    }

    // Puts the lines of one number behind the open text.
    fn add_numbered(&mut self, alloc: Global, lines: &str, number: u64) -> Result<(), NoMemory> {
        let number = format!(in alloc; "{number}")?;
        let lines = lines.replace(alloc, '%', number.as_str())?;
        for line in lines.as_str().split('|') {
            self.add_line(alloc, line)?;
        }
        Ok(())
    }

    // Puts the lines of each number behind the open text.
    fn add_lines(&mut self, alloc: Global, asked: Numbered<'_>) -> Result<(), NoMemory> {
        for number in 0..asked.count {
            self.add_numbered(alloc, asked.lines, asked.first.saturating_add(number))?;
        }
        Ok(())
    }

    // Puts a line with a character that nobody would see behind the open text.
    fn add_unseen(&mut self, alloc: Global, asked: Unseen<'_>) -> Result<(), NoMemory> {
        let mut character = String::new(alloc);
        character.push(char::from(asked.character))?;
        let line = asked.line.replace(alloc, '%', character.as_str())?;
        self.add_line(alloc, line.as_str())
    }

    // Puts a text behind the one of the open file.
    fn add_text(&mut self, text: &str) -> Result<(), NoMemory> {
        if let Place::File(place) = self.place
            && let Some(file) = self.files.get_mut(place)
        {
            file.text.push_str(text)?;
        }
        Ok(())
    }

    /// Takes the files of another case, and opens none.
    pub fn add_files(&mut self, alloc: Global, files: &[CaseFile]) -> Result<(), NoMemory> {
        for file in files {
            self.open_file(alloc, file.path.as_str())?;
            self.add_text(file.text.as_str())?;
        }
        self.place = Place::Nowhere;
        Ok(())
    }

    // Sets what is asked, once.
    fn ask(&mut self, alloc: Global, asked: Asked, line: &str) -> Result<(), NoMemory> {
        match &self.asked {
            Asked::Nothing => {
                self.asked = asked;
                Ok(())
            }
            _ => self.misread(alloc, line),
        }
    }

    // Sets the wanted status, once, of a case that asks something.
    fn want(&mut self, alloc: Global, status: Option<u64>, line: &str) -> Result<(), NoMemory> {
        self.place = Place::Answer;
        if status.is_none() || self.wanted.is_some() || matches!(&self.asked, Asked::Nothing) {
            return self.misread(alloc, line);
        }
        self.wanted = status;
        Ok(())
    }

    /// Takes a line that is no name and no `+`, in its place.
    pub fn take(&mut self, alloc: Global, line: &str) -> Result<(), NoMemory> {
        match line_of(line) {
            Line::Words(words) => {
                let words = String::from_str(alloc, words)?;
                self.ask(alloc, Asked::Run(words), line)?;
            }
            Line::Question(words) => {
                let words = String::from_str(alloc, words)?;
                self.ask(alloc, Asked::Question(words), line)?;
            }
            Line::File(path) => self.open_file(alloc, path)?,
            Line::Wanted(status) => self.want(alloc, status, line)?,
            Line::Lines(Some(asked)) => self.add_lines(alloc, asked)?,
            Line::Char(Some(asked)) => self.add_unseen(alloc, asked)?,
            Line::Unended => self.end_line(alloc, line)?,
            Line::Read(Some(call)) => self.failing.push(call)?,
            Line::Write(Some(call)) => self.failing_writes.push(call)?,
            Line::Room(Some(bytes)) => self.room = bytes,
            Line::Text => self.take_text(alloc, line)?,
            _ => self.misread(alloc, line)?,
        }
        Ok(())
    }
}
