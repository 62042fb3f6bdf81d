//! The setting of a case: users, stored rows, the judge, and the calls of the keeper and of the door that fail.

use crate::stored::{add_row, add_rows, cut_missing, no_rows};
use crate::words::{Numbered, cut_number, cut_word, number_of};
use crate::{BookAnswer, BundleAnswer, FixedJudge, RunAnswer};
use desk_tables::Rows;
use net_types::{List, NoMemory};
use std::alloc::Global;

/// What a case begins with.
#[derive(Drop)]
pub struct Setting {
    /// The file of users.
    pub users: String,
    /// The stored rows.
    pub rows: Rows,
    /// The judge.
    pub judge: FixedJudge,
    /// The calls of the keeper that fail, counted from 1.
    pub failing: Vec<u64>,
    /// Those of the door.
    pub shut: Vec<u64>,
}

impl Setting {
    // No users, no rows, a judge that refuses nothing, and no call that fails.
    fn new(alloc: Global) -> Setting {
        Setting {
            users: String::new(alloc),
            rows: no_rows(alloc),
            judge: FixedJudge {
                bundle: BundleAnswer::Fine,
                book: BookAnswer::Fine,
                run: RunAnswer::Judged(None),
                report: List::new(alloc),
            },
            failing: Vec::new(alloc),
            shut: Vec::new(alloc),
        }
    }

    fn add_line(&mut self, line: &str) -> Result<bool, NoMemory> {
        self.users.push_str(line)?;
        self.users.push_str("\n")?;
        Ok(true)
    }

    // Adds the lines of each number to the file of users.
    fn add_lines(&mut self, alloc: Global, asked: Numbered<'_>) -> Result<bool, NoMemory> {
        for at in 0..asked.count {
            let lines = asked.line(alloc, at)?;
            for line in lines.as_str().split('|') {
                self.add_line(line)?;
            }
        }
        Ok(true)
    }

    fn answer_bundle(&mut self, line: &str) -> bool {
        match cut_word(line) {
            ("fine", "") => self.judge.bundle = BundleAnswer::Fine,
            ("many", files) => match number_of(files) {
                Some(files) => self.judge.bundle = BundleAnswer::Many(files),
                None => return false,
            },
            _ => return false,
        }
        true
    }

    fn answer_book(&mut self, line: &str) -> bool {
        match line {
            "fine" => self.judge.book = BookAnswer::Fine,
            "toml" => self.judge.book = BookAnswer::NotToml,
            _ => return false,
        }
        true
    }

    // Sets what is answered of a run, and its report.
    fn answer_run(&mut self, alloc: Global, line: &str) -> Result<bool, NoMemory> {
        let Some((answer, report)) = run_answer(line) else {
            return Ok(false);
        };
        self.judge.run = answer;
        self.judge.report = List::from_slice(alloc, report.as_bytes())?;
        Ok(true)
    }

    // Takes a line; answers whether it is one of a setting.
    fn take(&mut self, alloc: Global, line: &str) -> Result<bool, NoMemory> {
        match cut_word(line) {
            ("|", rest) => self.add_line(rest),
            ("%lines", rest) => match Numbered::read(rest) {
                Some(asked) => self.add_lines(alloc, asked),
                None => Ok(false),
            },
            ("%rows", rest) => match Numbered::read(rest) {
                Some(asked) => add_rows(alloc, &mut self.rows, asked),
                None => Ok(false),
            },
            ("%fail", rest) => add_call(&mut self.failing, rest),
            ("%shut", rest) => add_call(&mut self.shut, rest),
            ("bundle", rest) => Ok(self.answer_bundle(rest)),
            ("book", rest) => Ok(self.answer_book(rest)),
            ("run", rest) => self.answer_run(alloc, rest),
            _ => add_row(alloc, &mut self.rows, line),
        }
    }
}

// Adds the number of a call that fails.
fn add_call(calls: &mut Vec<u64>, number: &str) -> Result<bool, NoMemory> {
    match number_of(number) {
        Some(call) => {
            calls.push(call)?;
            Ok(true)
        }
        None => Ok(false),
    }
}

// What is answered of a run, and its report.
fn run_answer(line: &str) -> Option<(RunAnswer, &str)> {
    let (word, rest) = cut_word(line);
    match word {
        "base" => Some((RunAnswer::Base(number_of(rest)?), "")),
        "new" => Some((RunAnswer::New(number_of(rest)?), "")),
        "limit" => Some((RunAnswer::Limit(number_of(rest)?), "")),
        "toml" => Some((RunAnswer::NotToml, "")),
        "judged" => {
            let (missing, report) = cut_missing(rest)?;
            Some((RunAnswer::Judged(missing), report))
        }
        _ => None,
    }
}

/// The setting of these lines, if each is one of a setting.
pub fn setting_of(alloc: Global, lines: &[String]) -> Result<Option<Setting>, NoMemory> {
    let mut setting = Setting::new(alloc);
    for line in lines {
        if !setting.take(alloc, line.as_str())? {
            return Ok(None);
        }
    }
    Ok(Some(setting))
}
