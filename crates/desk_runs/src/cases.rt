//! A table of cases.

use crate::talks::is_talk;
use net_types::NoMemory;
use std::alloc::Global;

/// A request or a question of a case, and the answer that it has to get.
#[derive(Drop)]
pub struct Step {
    /// The line that asks.
    pub asked: String,
    /// The lines of a conversation behind it.
    pub lines: Vec<String>,
    /// The answer.
    pub wanted: String,
}

/// A case: a setting, and what is asked in it.
#[derive(Drop)]
pub struct Case {
    /// Its name, which no other case of the table has.
    pub name: String,
    /// The lines of its setting.
    pub setting: Vec<String>,
    /// What is asked, in order.
    pub steps: Vec<Step>,
    /// The first line that is none of a table's, or stands where it may not.
    pub misread: Option<String>,
}

impl Case {
    fn new(alloc: Global, name: &str) -> Result<Case, NoMemory> {
        Ok(Case {
            name: String::from_str(alloc, name)?,
            setting: Vec::new(alloc),
            steps: Vec::new(alloc),
            misread: None,
        })
    }

    // Keeps the line as one that is misread, if it is the first.
    fn misread(&mut self, alloc: Global, line: &str) -> Result<(), NoMemory> {
        if self.misread.is_none() {
            self.misread = Some(String::from_str(alloc, line)?);
        }
        Ok(())
    }

    // Takes the setting of another case.
    fn add_setting(&mut self, alloc: Global, lines: &[String]) -> Result<(), NoMemory> {
        for line in lines {
            self.setting.push(String::from_str(alloc, line.as_str())?)?;
        }
        Ok(())
    }

    // Asks one thing more.
    fn ask(&mut self, alloc: Global, line: &str) -> Result<(), NoMemory> {
        self.steps.push(Step {
            asked: String::from_str(alloc, line)?,
            lines: Vec::new(alloc),
            wanted: String::new(alloc),
        })?;
        Ok(())
    }

    // Sets the answer to what was asked last, once.
    fn want(&mut self, alloc: Global, answer: &str, line: &str) -> Result<(), NoMemory> {
        match self.steps.last_mut() {
            Some(step) if step.wanted.is_empty() => {
                step.wanted = String::from_str(alloc, answer)?;
                Ok(())
            }
            _ => self.misread(alloc, line),
        }
    }

    // Adds a line to the conversation that was asked for last, which has no answer yet.
    fn add_line(&mut self, alloc: Global, line: &str) -> Result<(), NoMemory> {
        match self.steps.last_mut() {
            Some(step) if step.wanted.is_empty() && is_talk(step) => {
                Ok(step.lines.push(String::from_str(alloc, line)?)?)
            }
            _ => self.misread(alloc, line),
        }
    }

    // Takes a line that is no name and no `+`. The setting stands before the first that asks.
    fn take(&mut self, alloc: Global, line: &str) -> Result<(), NoMemory> {
        match line.split_once(' ') {
            Some(("=>", answer)) => self.want(alloc, answer, line),
            Some((">" | "?" | "!" | "*", _)) => self.ask(alloc, line),
            _ if line.is_empty() || line.starts_with('#') => Ok(()),
            _ if !self.steps.is_empty() => self.add_line(alloc, line),
            _ => Ok(self.setting.push(String::from_str(alloc, line)?)?),
        }
    }
}

// Begins a case, whose name no other case may have.
fn begin(alloc: Global, cases: &mut Vec<Case>, name: &str) -> Result<(), NoMemory> {
    let mut case = Case::new(alloc, name)?;
    if cases.iter().any(|other| other.name.as_str() == name) {
        case.misread(alloc, name)?;
    }
    cases.push(case)?;
    Ok(())
}

// Gives the last case the setting of the one of this name before it.
fn add_like(alloc: Global, cases: &mut [Case], name: &str) -> Result<(), NoMemory> {
    let Some((last, before)) = cases.split_last_mut() else {
        return Ok(());
    };
    match before.iter().find(|case| case.name.as_str() == name) {
        Some(like) => last.add_setting(alloc, like.setting.as_slice()),
        None => last.misread(alloc, name),
    }
}

// Takes a line before the first case, which is empty or a comment.
fn take_first(alloc: Global, cases: &mut Vec<Case>, line: &str) -> Result<(), NoMemory> {
    if line.is_empty() || line.starts_with('#') {
        return Ok(());
    }
    begin(alloc, cases, "")?;
    match cases.last_mut() {
        Some(case) => case.misread(alloc, line),
        None => Ok(()),
    }
}

// Takes the next line of the table.
fn take_line(alloc: Global, cases: &mut Vec<Case>, line: &str) -> Result<(), NoMemory> {
    match line.split_once(' ') {
        Some(("==", name)) => begin(alloc, cases, name),
        Some(("+", name)) => add_like(alloc, cases.as_mut_slice(), name),
        _ => match cases.last_mut() {
            Some(last) => last.take(alloc, line),
            None => take_first(alloc, cases, line),
        },
    }
}

/// The cases of a table, each line of which ends with LF; a case keeps what can't be read of it.
pub fn table_of(alloc: Global, text: &str) -> Result<Vec<Case>, NoMemory> {
    let mut cases = Vec::new(alloc);
    for line in text.strip_suffix('\n').unwrap_or(text).split('\n') {
        take_line(alloc, &mut cases, line)?;
    }
    Ok(cases)
}
