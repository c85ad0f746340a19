//! Extensions by their identifiers, kept as values or in a table.

ghost use Rattle.std.specs.Prelude.{◌≡◌, List};
ghost use Rattle.rpki.specs.ExtensionValue.{ExtensionParts};
ghost use Rattle.rpki_cert.specs.Cert.{find};
ghost use Rattle.rpki_cert.specs.Known.{are_understood};
ghost use Rattle.rpki_cert.specs.ExtensionTable.{identifier_of};
ghost use Rattle.rpki_cert.specs.Inspected.{AreIn};

use crate::extension::kind::{ExtensionKind, is_understood};
use crate::extension::list::find;
use crate::extension::table::ExtensionTable;
use rpki::der::ConstOid;
use rpki::repository::x509::{ExtensionOctets, ExtensionView};

/// The extensions of a certificate.
#[derive(Drop)]
pub enum ExtensionSource<'a> {
    /// Those that are kept.
    Kept(&'a [ExtensionOctets]),
    /// Those of a table.
    Listed(&'a ExtensionTable<'a>),
}

/// The extension of this identifier, of those that are kept.
pub fn find_kept<'a>(all: &'a [ExtensionOctets], id: ConstOid) -> Option<ExtensionView<'a>>
    ensures { result ≡ find id.entry.0.now all.now }
{
    match find(all, id) {
        Some(extension) => Some(extension.view()),
        None => None,
    }
}

/// Whether every critical extension is a known one (RFC 5280 4.2).
pub fn are_understood(all: &[ExtensionOctets]) -> bool
    ensures { result ≡ are_understood all.now }
{
    'extensions: for extension in all {
        if !is_understood(extension.critical(), extension.id()) {
            return false;
        }
    }
    true
}

impl<'a> ExtensionSource<'a> {
    /// The extension of this kind.
    pub fn find(&self, kind: ExtensionKind) -> Option<ExtensionView<'a>>
        ensures { (xs : List ExtensionParts) → AreIn xs self.now → result ≡ find (identifier_of kind) xs }
    {
        match self {
            ExtensionSource::Kept(all) => find_kept(all, kind.id()),
            ExtensionSource::Listed(table) => table.find(kind),
        }
    }

    /// Whether every critical extension is a known one (RFC 5280 4.2).
    pub fn are_understood(&self) -> bool
        ensures { (xs : List ExtensionParts) → AreIn xs self.now → result ≡ are_understood xs }
    {
        match self {
            ExtensionSource::Kept(all) => are_understood(all),
            ExtensionSource::Listed(table) => table.are_understood(),
        }
    }
}
