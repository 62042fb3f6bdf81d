//! The judge that runs the program's own analysis.

ghost use Rattle.std.specs.Prelude.{◌≡◌, ◌≤◌, ◌<◌};

use crate::answers::{book_answer, bundle_answer, run_answer};
use net_types::SourceFile;
use review_rules::{Judge, JudgeAnswer};
use std::alloc::Global;
use std::marker::{Brand, Model};
use std::sync::ledger::Blank;
use std::thread::Threads;

/// A judge with so many workers for each case, 1 to 8. Contracts see the number.
#[derive(Debug, Drop)]
pub struct RunJudge {
    workers: u8,
}

impl Model for RunJudge {
    ghost use Rattle.std.specs.Prelude.{ℕ, ◌≤◌, ◌<◌};

    ghost Value = { ℕ };

    ghost view = { λ j. j.workers };

    ghost invariant = { λ j. (0 < j.workers) × (j.workers ≤ 8) };
}

impl RunJudge {
    /// A judge with so many workers.
    pub fn new(workers: u8) -> RunJudge
        requires some { 0 < workers }
        requires few { workers ≤ 8 }
        ensures { result ≡ workers }
    {
        RunJudge { workers }
    }

    // The number of workers, 1 to 8.
    fn workers(&self) -> u8
        ensures some { 0 < result }
        ensures few { result ≤ 8 }
    {
        self.workers
    }
}

impl Judge for RunJudge {
    ghost use Rattle.desk_judge.specs.Judged.{meant};

    ghost meaning = { λ _. meant };

    fn bundle(&mut self, alloc: Global, files: &[SourceFile]) -> JudgeAnswer {
        bundle_answer(alloc, files)
    }

    fn book(&mut self, alloc: Global, text: &[u8]) -> JudgeAnswer {
        book_answer(alloc, text)
    }

    fn run<R: Threads + Sync>(
        &mut self,
        rt: &R,
        alloc: Global,
        base: &[SourceFile],
        new: &[SourceFile],
        book: &[u8],
    ) -> JudgeAnswer {
        run_answer::<R, Brand>(rt, alloc, base, new, book, self.workers(), Blank::new(1))
    }
}
