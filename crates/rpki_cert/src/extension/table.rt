//! The extensions of a certificate, read once, in place without memory (RFC 5280 4.1.2.9, 4.2).

ghost use Rattle.std.specs.Prelude.{◌≡◌, IfOk, IfErr};
ghost use Rattle.rpki_der.specs.Cursor.{left};
ghost use Rattle.rpki_cert.specs.Cert.{find};
ghost use Rattle.rpki_cert.specs.Known.{are_understood};
ghost use Rattle.rpki_cert.specs.ExtensionTable.{OfListed, identifier_of};
ghost use Rattle.rpki_cert.specs.View.{IsPassed, IsNotListed};

use crate::extension::kind::{ExtensionKind, is_understood_in, slot_of};
use rpki::der::{Constructed, DecodeError};
use rpki::repository::x509::ExtensionView;
use std::marker::Model;

/// The extensions of a certificate, and where each that certificates of the RPKI have is found.
#[derive(Drop)]
pub struct ExtensionTable<'a> {
    list: &'a [u8],
    contents: [Option<&'a [u8]>; 14],
    critical: [bool; 14],
    understood: bool,
}

impl<'a> Model for ExtensionTable<'a> {
    ghost use Rattle.std.specs.Prelude.{ℕ, List};
    ghost use Rattle.rpki_cert.specs.ExtensionTable.{IsTable};

    ghost Value = { List ℕ };

    ghost view = { λ t. t.list.now };

    ghost invariant = { λ t. IsTable t.list.now t.contents t.critical t.understood };
}

/// Extensions that were read, in sequence.
#[derive(Drop)]
pub struct Passed<'a> {
    /// Their table; of those that have one identifier, the first is in it.
    pub table: ExtensionTable<'a>,
    /// How many they are.
    pub count: usize,
    /// Whether each of them has a slot of its own; so no two have the same identifier.
    pub apart: bool,
}

/// Reads extensions, in sequence, and one at least.
///
/// The error is `Content` with the text `no extensions` where there is none; else that of the first that isn't one.
pub fn pass<'a>(list: Constructed<'a>) -> Result<Passed<'a>, DecodeError>
    ensures ok { IfOk result (λ p. IsPassed (left list.entry) p) }
    ensures err { IfErr result (λ e. IsNotListed (left list.entry) e) }
{
    if list.is_empty() {
        return Err(DecodeError::content("no extensions"));
    }
    let mut contents = [None; 14];
    let mut critical = [false; 14];
    let mut understood = true;
    let mut count = 0;
    let mut apart = true;
    let mut rest = Constructed::from_slice(list.rest());
    'extensions: while !rest.is_empty() {
        match ExtensionView::take_from(&mut rest) {
            Ok(extension) => {
                count += 1;
                let slot = slot_of(extension.id());
                let known = is_understood_in(extension.critical(), slot);
                understood = understood && known;
                if contents[slot].is_some() {
                    apart = false;
                } else {
                    contents[slot] = Some(extension.octets());
                    critical[slot] = extension.critical();
                }
            }
            Err(e) => return Err(e),
        }
    }
    Ok(Passed {
        table: ExtensionTable {
            list: list.rest(),
            contents,
            critical,
            understood,
        },
        count,
        apart,
    })
}

impl<'a> ExtensionTable<'a> {
    /// The octets of the extensions.
    pub fn octets(&self) -> &'a [u8]
        ensures { result.now ≡ self.now }
    {
        self.list
    }

    /// The extension of this kind.
    pub fn find(&self, kind: ExtensionKind) -> Option<ExtensionView<'a>>
        ensures { OfListed self.now (λ xs. result ≡ find (identifier_of kind) xs) }
    {
        let slot = kind.slot();
        match self.contents[slot] {
            Some(octets) => Some(ExtensionView::of_parts(kind.id(), self.critical[slot], octets)),
            None => None,
        }
    }

    /// Whether every critical extension is a known one (RFC 5280 4.2).
    pub fn are_understood(&self) -> bool
        ensures { OfListed self.now (λ xs. result ≡ are_understood xs) }
    {
        self.understood
    }
}
