//! The parts of manifests.

/// A part of a manifest, of which it is said that it isn't there, or is there but not as it has to be.
#[derive(Clone, Copy, Debug, PartialEq, Eq)]
pub enum ManifestPart {
    /// The SEQUENCE around all, and that nothing follows it.
    Manifest,
    /// The number.
    Number,
    /// When the manifest was issued.
    ThisUpdate,
    /// When the next manifest is issued at the latest.
    NextUpdate,
    /// The identifier of the algorithm of digests.
    HashAlgorithm,
    /// The list of files, and that nothing follows it.
    FileList,
    /// That the next update is after this update.
    Order,
}
