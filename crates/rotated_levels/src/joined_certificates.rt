//! What holds of certificates that are put together, as the contract of a function that does nothing.
ghost use Rattle.rotated_levels.specs.CertificateJoined.{CertificatesJoin};

/// What is put together from certificates of a level's connected parts proves of the level what they prove of the parts.
///
/// Proved:
/// - Certificates of the connected parts of a level, joined, are one of the level.
pub fn certificates_join()
    ensures { CertificatesJoin }
{}
