//! What is true of the desk: the law is the contract of a function that does nothing.

ghost use Rattle.program.specs.Laws.{MergedReviewsHold};

/// What was merged holds. Where a merge is accepted at a desk whose tables come from empty ones by accepted requests, its
/// own and those of the desks before it, whoever their users were, each property of the book of the policy's version of
/// then holds in the network of the review's files: whatever permitted set of links fails, in every stable labelling.
pub fn law_of_merged_reviews()
    ensures { MergedReviewsHold }
{}
