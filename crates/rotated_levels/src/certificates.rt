//! What holds of every document, each as the contract of a function that does nothing.
ghost use Rattle.rotated_levels.specs.Certified.{CertificatesRotateBack};

/// What a certificate says of a level it says, with the document's numbers of the edges, of the document.
///
/// Proved:
/// - The certificate of a level, with the document's numbers of its edges, is one of the document.
/// - So listed edges close cycles and no cycle is left, the layers have the written span, and the flow shows that it is minimal.
/// - Each part begins in layer 0, and the lists have their form.
pub fn certificates_rotate_back()
    ensures { CertificatesRotateBack }
{}
