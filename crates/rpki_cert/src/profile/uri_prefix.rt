//! Whether one URI lies below another (RFC 6481 2.2).

ghost use Rattle.std.specs.Prelude.{◌≡◌, ◌≢◌, ◌↔◌, ◌∷◌, ◌++◌, [], ℕ, List, None, IsTrue};
ghost use Rattle.rpki_text.specs.RsyncText.{rsync_refusal};
ghost use Rattle.rpki_cert.specs.RuleWords.{IsBelow};

use rpki::uri::RsyncView;

/// Whether these are two rsync URIs, the second below the first.
fn is_below(base: &[u8], text: &[u8]) -> bool
    ensures { IsTrue result ↔ IsBelow base.now text.now }
{
    match RsyncView::from_slice(base) {
        Ok(base) => match RsyncView::from_slice(text) {
            Ok(uri) => match uri.relative_to(&base) {
                Some(path) => !path.is_empty(),
                None => false,
            },
            Err(_) => false,
        },
        Err(_) => false,
    }
}

/// Whether the second text goes on after the first, which ends with a slash.
fn goes_on(base: &[u8], text: &[u8]) -> bool
    ensures { IsTrue result → (front path : List ℕ) × (base.now ≡ front ++ 47 ∷ []) × (text.now ≡ front ++ 47 ∷ path)
        × (path ≢ []) }
{
    if base.is_empty() || text.len() <= base.len() {
        return false;
    }
    if base[base.len() - 1] != b'/' {
        return false;
    }
    &text[..base.len()] == base
}

/// Whether the second of two rsync URIs lies below the first. Where it goes on after the first, as nearly always,
/// neither is read again.
pub fn lies_below(base: &[u8], text: &[u8]) -> bool
    ensures { rsync_refusal base.now ≡ None → rsync_refusal text.now ≡ None
        → IsTrue result ↔ IsBelow base.now text.now }
{
    goes_on(base, text) || is_below(base, text)
}
