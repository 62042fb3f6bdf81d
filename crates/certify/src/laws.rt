//! What a certificate says: a law is the contract of a function that does nothing.

ghost use Rattle.certify.specs.Laws.{CertificatesHold};

/// A certified property holds: whatever set of links that it permits has failed, in every stable labelling.
pub fn law_of_certificates()
    ensures { CertificatesHold }
{}
