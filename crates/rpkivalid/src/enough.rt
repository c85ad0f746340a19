//! Whether what is found is enough to be written.

ghost use Rattle.std.specs.Prelude.{◌≡◌, IfSome, IfNone};
ghost use Rattle.std.specs.Option.{option_map};
ghost use Rattle.rpkivalid.specs.Enough.{IsLeast, IsNoLeast, is_anchored, some_anchored};

use rpki_payloads::Payloads;

/// Whether the locator has a trust anchor.
fn is_anchored(one: &Payloads) -> bool
    ensures { result ≡ is_anchored one.now }
{
    match one.tally() {
        Some(tally) => tally.is_anchored,
        None => false,
    }
}

/// Whether one of the locators has a trust anchor.
pub fn some_anchored(found: &[Payloads]) -> bool
    ensures { result ≡ some_anchored found.now }
{
    found.iter().any(|one| is_anchored(one))
}

/// How many route origins there have to be; without a word none. None if the word is no number below 2^32.
pub fn least_of(word: Option<&str>) -> Option<u32>
    ensures some { IfSome result (IsLeast (option_map (λ word. word.now) word.entry)) }
    ensures none { IfNone result (IsNoLeast (option_map (λ word. word.now) word.entry)) }
{
    match word {
        Some(word) => match word.parse::<u32>() {
            Ok(least) => Some(least),
            Err(_) => None,
        },
        None => Some(0),
    }
}
