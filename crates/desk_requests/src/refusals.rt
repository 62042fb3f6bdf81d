//! Why a conversation is no request.

/// The refusals of a conversation that come before the rules of the desk.
#[derive(Clone, Copy, PartialEq, Eq, Debug)]
pub enum HttpRefusal {
    /// The head, a field or the body is not well formed.
    BadRequest,
    /// The target is no path of the desk.
    NotFound,
    /// The method is not the path's.
    BadMethod,
    /// A command has no length of its body.
    NoLength,
    /// The body is longer than a body may be.
    BodyTooLarge,
    /// The head is longer than a head may be.
    HeadTooLarge,
    /// The body has a transfer coding.
    NoCoding,
}
