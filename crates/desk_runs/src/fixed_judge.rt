//! A judge that holds one fixed answer for each of its questions.

ghost use Rattle.std.specs.Prelude.{◌≡◌, ◌<◌, ℕ, unwrap_or};
ghost use Rattle.review_rules.specs.Judging.{IsBookAnswer, IsBundleAnswer, IsRunAnswer, Means};
ghost use Rattle.desk_runs.specs.Fixed.{book_answer, bundle_answer, position, run_answer};

use desk_tables::copy;
use net_types::{BundleRefusal, FormRefusal, List, SourceFile};
use review_rules::{BundleSide, Judge, JudgeAnswer};
use std::alloc::Global;
use std::thread::Threads;

/// What is answered of a bundle.
#[derive(Clone, Copy)]
pub enum BundleAnswer {
    /// It is one.
    Fine,
    /// It has this many files, which are too many.
    Many(u64),
}

/// What is answered of a property file.
#[derive(Clone, Copy)]
pub enum BookAnswer {
    /// It is one.
    Fine,
    /// It is no TOML.
    NotToml,
}

/// What is answered of a run.
#[derive(Clone, Copy)]
pub enum RunAnswer {
    /// The head's bundle has this many files, which are too many.
    Base(u64),
    /// The review's bundle has this many files, which are too many.
    New(u64),
    /// The property file is no TOML.
    NotToml,
    /// There are this many cases, which are too many.
    Limit(u64),
    /// It came to its end, with this property missing.
    Judged(Option<u8>),
}

/// A judge with one answer for each of its questions, and a report.
#[derive(Drop)]
pub struct FixedJudge {
    pub bundle: BundleAnswer,
    pub book: BookAnswer,
    pub run: RunAnswer,
    pub report: List<u8>,
}

// The position, where it is one of a book.
fn position(missing: Option<u8>) -> Option<u8>
    ensures value { result ≡ position missing }
    ensures low { unwrap_or result 0 < 64 }
{
    match missing {
        Some(at) if at < 64 => Some(at),
        _ => None,
    }
}

fn bundle_answer(answer: BundleAnswer) -> JudgeAnswer
    ensures value { Means (bundle_answer answer) result }
    ensures kind { (n : ℕ) → IsBundleAnswer n result }
{
    match answer {
        BundleAnswer::Fine => JudgeAnswer::Fine,
        BundleAnswer::Many(files) => {
            JudgeAnswer::Refused(BundleSide::New, BundleRefusal::TooManyFiles(files))
        }
    }
}

fn book_answer(answer: BookAnswer) -> JudgeAnswer
    ensures value { Means (book_answer answer) result }
    ensures kind { IsBookAnswer result }
{
    match answer {
        BookAnswer::Fine => JudgeAnswer::Fine,
        BookAnswer::NotToml => JudgeAnswer::BookRefused(FormRefusal::NotToml),
    }
}

fn run_answer(answer: RunAnswer, report: List<u8>) -> JudgeAnswer
    ensures value { Means (run_answer answer report) result }
    ensures kind { (m n : ℕ) → IsRunAnswer m n result }
{
    match answer {
        RunAnswer::Base(files) => {
            JudgeAnswer::Refused(BundleSide::Base, BundleRefusal::TooManyFiles(files))
        }
        RunAnswer::New(files) => {
            JudgeAnswer::Refused(BundleSide::New, BundleRefusal::TooManyFiles(files))
        }
        RunAnswer::NotToml => JudgeAnswer::BookRefused(FormRefusal::NotToml),
        RunAnswer::Limit(cases) => JudgeAnswer::Limit(cases),
        RunAnswer::Judged(missing) => JudgeAnswer::Judged {
            missing: position(missing),
            report,
        },
    }
}

// The answer of a run, with a report of its own.
#[tactic(auto, using(crate::proofs::JudgeLemmas::same_report))]
fn run_again(alloc: Global, answer: RunAnswer, report: &[u8]) -> JudgeAnswer
    ensures value { Means (run_answer answer report.now) result }
    ensures kind { (m n : ℕ) → IsRunAnswer m n result }
{
    match copy(alloc, report) {
        Ok(report) => run_answer(answer, report),
        Err(_) => JudgeAnswer::NoMemory,
    }
}

impl Judge for FixedJudge {
    ghost use Rattle.desk_runs.specs.Fixed.{book_answer, bundle_answer, run_answer};

    ghost meaning = { λ j. record { bundle = λ files. bundle_answer j.bundle; book = λ text. book_answer j.book; run = λ base new text. run_answer j.run j.report } };

    fn bundle(&mut self, _alloc: Global, _files: &[SourceFile]) -> JudgeAnswer {
        bundle_answer(self.bundle)
    }

    fn book(&mut self, _alloc: Global, _text: &[u8]) -> JudgeAnswer {
        book_answer(self.book)
    }

    fn run<R: Threads + Sync>(
        &mut self,
        _rt: &R,
        alloc: Global,
        _base: &[SourceFile],
        _new: &[SourceFile],
        _book: &[u8],
    ) -> JudgeAnswer {
        run_again(alloc, self.run, self.report.as_slice())
    }
}
