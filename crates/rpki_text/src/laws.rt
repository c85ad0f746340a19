//! Laws of the definitions. Each function does nothing, and its contract is the law that it is named for; the laws of
//! single calls rest on those calls.

ghost use Rattle.rpki_text.specs.Laws.{OneMeaning, EqualParts, EqualParents, EqualModuleAndPath, OneHttpsMeaning};
ghost use Rattle.rpki_text.specs.Laws.{EqualHttpsParts, EqualHttpsParents};
ghost use Rattle.std.specs.Prelude.{◌≡◌, ◌↔◌, IsTrue};
ghost use Rattle.rpki_text.specs.declared.uri.scheme.Scheme.{Scheme as UriScheme};
ghost use Rattle.rpki_text.specs.declared.uri.error.Error.{Error as UriError};

use crate::uri::{Error, Scheme};

/// A text stands for at most one rsync URI: the one that is read from it.
pub fn rsync_texts_have_one_meaning()
    ensures { OneMeaning }
{}

/// Two rsync URIs are equal exactly where their authorities, modules, segments and marks are.
pub fn equal_rsync_uris_have_equal_parts()
    ensures { EqualParts }
{}

/// Equal rsync URIs have equal parents.
pub fn equal_rsync_uris_have_equal_parents()
    ensures { EqualParents }
{}

/// Two rsync URIs are equal exactly where their canonical modules and their paths are.
pub fn equal_rsync_uris_have_equal_modules_and_paths()
    ensures { EqualModuleAndPath }
{}

/// A text stands for at most one https URI: the one that is read from it.
pub fn https_texts_have_one_meaning()
    ensures { OneHttpsMeaning }
{}

/// Two https URIs are equal exactly where their authorities and paths are.
pub fn equal_https_uris_have_equal_parts()
    ensures { EqualHttpsParts }
{}

/// Equal https URIs have equal parents.
pub fn equal_https_uris_have_equal_parents()
    ensures { EqualHttpsParents }
{}

/// Schemes, and errors of URIs, are equal exactly where they are one.
pub fn equal_schemes_and_errors_are_one()
    ensures scheme { (x y : UriScheme) → IsTrue (⟦<Scheme as PartialEq>⟧.eq x y) ↔ (x ≡ y) }
    ensures uri { (d e : UriError) → IsTrue (⟦<Error as PartialEq>⟧.eq d e) ↔ (d ≡ e) }
{}
