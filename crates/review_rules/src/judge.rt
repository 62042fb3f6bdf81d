//! The judge: who says what is wrong with a bundle or a property file, and what a review breaks.

ghost use Rattle.std.specs.Prelude.{◌≡◌, length};
ghost use Rattle.std.specs.Thread.{IsSync};
ghost use Rattle.review_rules.specs.Judging.{Judging, IsBookAnswer, IsBundleAnswer, IsRunAnswer, Means, NamesAscend};

use crate::JudgeAnswer;
use net_types::SourceFile;
use std::alloc::Global;
use std::thread::Threads;

/// A judge has a meaning: a function for each of its questions, which no call changes. Each answer but
/// `NoMemory`, which may come at any time, is the function's value.
pub trait Judge {
    ghost meaning: { Self → Judging };

    /// Whether the files are a bundle: `Fine`, or `Refused` with the side `New`. The names ascend.
    fn bundle(&mut self, alloc: Global, files: &[SourceFile]) -> JudgeAnswer
        requires { NamesAscend files.now }
        ensures value { Means ((meaning self.old).bundle files.now) result }
        ensures kind { IsBundleAnswer (length files.now) result }
        ensures same { meaning self.new ≡ meaning self.old };

    /// Whether the text is a property file: `Fine` or `BookRefused`.
    fn book(&mut self, alloc: Global, text: &[u8]) -> JudgeAnswer
        ensures value { Means ((meaning self.old).book text.now) result }
        ensures kind { IsBookAnswer result }
        ensures same { meaning self.new ≡ meaning self.old };

    /// The run over two bundles and a property file: `Refused`, `BookRefused`, `Limit` or `Judged`. In each bundle
    /// the names ascend. Threads may share the runtime.
    fn run<R: Threads + Sync>(
        &mut self,
        rt: &R,
        alloc: Global,
        base: &[SourceFile],
        new: &[SourceFile],
        book: &[u8],
    ) -> JudgeAnswer
        requires threads { IsSync R.row }
        requires base { NamesAscend base.now }
        requires new { NamesAscend new.now }
        ensures value { Means ((meaning self.old).run base.now new.now book.now) result }
        ensures kind { IsRunAnswer (length base.now) (length new.now) result }
        ensures same { meaning self.new ≡ meaning self.old };
}
