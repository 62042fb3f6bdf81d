//! What is asked of the desk, what the judge answers, and what is decided.

use net_types::{BundleRefusal, FormRefusal, List, SourceFile, Text};

/// What a user may ask for. Numbers are those of reviews.
#[derive(Debug, Drop)]
pub enum Command {
    /// Makes the next version of the policy.
    SetPolicy {
        /// How many approvals a merge needs.
        approvals: u64,
        /// The property file.
        book: List<u8>,
    },
    /// Makes a new review.
    Submit {
        /// The head on which it is made.
        base: u64,
        /// What its author calls it.
        title: Text,
        /// Its bundle.
        files: List<SourceFile>,
    },
    /// Has the judge compare the review's bundle with the head's.
    Certify(u64),
    /// Approves the review.
    Approve(u64),
    /// Makes the review's bundle the next head.
    Merge(u64),
    /// Takes the review back.
    Withdraw(u64),
}

/// A command under a user's key.
#[derive(Debug, Drop)]
pub struct Request {
    /// The secret that tells who asks.
    pub token: Text,
    /// The key under which the answer is kept.
    pub key: Text,
    /// The command.
    pub command: Command,
}

/// What has to be asked of the judge before a request is decided.
#[derive(Clone, Copy, PartialEq, Eq, Debug)]
pub enum Ask {
    /// Nothing.
    Nothing,
    /// Whether the submitted files are a bundle.
    Bundle,
    /// The run over the head's bundle and the review's.
    Run,
    /// Whether the text is a property file.
    Book,
}

/// The side of a bundle that is refused.
#[derive(Clone, Copy, PartialEq, Eq, Debug)]
pub enum BundleSide {
    /// The bundle of the head.
    Base,
    /// The bundle of the review.
    New,
}

/// What the judge answered.
#[derive(Debug, Drop)]
pub enum JudgeAnswer {
    /// Goes with `Ask::Nothing`. No judge answers it.
    NotAsked,
    /// There is nothing to refuse.
    Fine,
    /// The bundle of this side is refused.
    Refused(BundleSide, BundleRefusal),
    /// The property file is refused.
    BookRefused(FormRefusal),
    /// There are this many cases, which are too many.
    Limit(u64),
    /// The run came to its end.
    Judged {
        /// The position in the book of the first property that is not certified.
        missing: Option<u8>,
        /// The report.
        report: List<u8>,
    },
    /// There was no memory.
    NoMemory,
}

/// What a review lacks to be certified.
#[derive(Clone, Copy, PartialEq, Eq, Debug)]
pub enum Lack {
    /// A certificate of the policy's present version.
    NotRun,
    /// The property at this position of the book.
    Property(u8),
}

/// What is wrong with a policy.
#[derive(Clone, Copy, PartialEq, Eq, Debug)]
pub enum PolicyFault {
    /// The approvals are not 1 to 16.
    Approvals,
    /// The property file is refused.
    Book(FormRefusal),
}

/// A rule that is broken, with what its refusal names.
#[derive(Clone, Copy, PartialEq, Eq, Debug)]
pub enum Rule {
    /// No user has the token.
    UnknownUser,
    /// The user's key is kept with another command.
    KeyReused,
    /// The user lacks the command's role.
    WrongRole,
    /// No review has the number.
    NoSuchReview,
    /// The review is merged or withdrawn.
    Closed,
    /// The base is not the head, which is this.
    Stale(u64),
    /// The judge refuses the bundle.
    BundleRefused(BundleSide, BundleRefusal),
    /// The judge came to its limit of cases.
    CasesLimit(u64),
    /// There are 10,000 reviews.
    TooManyReviews,
    /// The review is not certified under the policy's present version.
    NotCertified(Lack),
    /// The approver is the author.
    OwnReview,
    /// The user approved the review before.
    AlreadyApproved,
    /// The review has fewer approvals than the policy needs.
    TooFewApprovals {
        /// How many it has.
        have: u64,
        /// How many it needs.
        need: u64,
    },
    /// The policy is refused.
    PolicyRefused(PolicyFault),
    /// This many bytes would be kept, which are too many.
    DeskFull(u64),
}

/// What is decided on a request.
#[derive(Clone, Copy, PartialEq, Eq, Debug)]
pub enum Decision {
    /// The same command is kept under the key, in the row of this number, from 1.
    Repeated(u64),
    /// The command is accepted.
    Accepted,
    /// The first of the command's rules that breaks.
    Refused(Rule),
}
