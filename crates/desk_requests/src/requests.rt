//! What a conversation may ask for.

use net_types::Text;
use review_rules::Request;

/// What is asked without a body.
#[derive(Clone, Copy, PartialEq, Eq, Debug)]
pub enum Query {
    /// The head and the policy's version.
    Head,
    /// A review.
    Review(u64),
    /// The report of a review's certificate.
    Report(u64),
}

/// A command without what its body says. Numbers are those of reviews.
#[derive(Clone, Copy, PartialEq, Eq, Debug)]
pub enum Form {
    /// Makes the next version of the policy.
    SetPolicy,
    /// Makes a new review.
    Submit,
    /// Has the judge compare the review's bundle with the head's.
    Certify(u64),
    /// Approves the review.
    Approve(u64),
    /// Makes the review's bundle the next head.
    Merge(u64),
    /// Takes the review back.
    Withdraw(u64),
}

/// A path of the desk, with what its method asks for.
#[derive(Clone, Copy, PartialEq, Eq, Debug)]
pub enum Path {
    /// One of GET.
    Get(Query),
    /// One of POST.
    Post(Form),
}

/// What is to be done once the head is known.
#[derive(Clone, Copy, PartialEq, Eq, Debug)]
pub enum Plan {
    /// All is known.
    Now(Query),
    /// A body of so many bytes is to be read for a command.
    Body(Form, u64),
}

/// What a head says.
#[derive(Debug, Drop)]
pub struct Heard {
    /// The secret that tells who asks. It is empty where none stands, or one that no user can have.
    pub token: Text,
    /// The key under which the answer to a command is kept. It is empty where none stands, or what stands is none.
    pub key: Text,
    /// What is to be done.
    pub plan: Plan,
}

/// What a conversation asks for.
#[derive(Debug, Drop)]
pub enum Asked {
    /// Something of the desk as it is.
    Query {
        /// The secret that tells who asks. It is empty where none stands, or one that no user can have.
        token: Text,
        /// What is asked.
        query: Query,
    },
    /// A command.
    Command(Request),
}
