//! Which rules are asked strictly.

ghost use Rattle.std.specs.Prelude.{◌≡◌};
ghost use Rattle.rpki_objects.specs.Strictness.{all_strict};

/// Rules that objects in use break, or that a standard only recommends: whether they are asked. None is by default.
#[derive(Clone, Copy, Debug, Drop)]
pub struct Strictness {
    /// Names of certificates are as the profile has them (RFC 6487 4.4, 4.5, RFC 8209 3.1.1).
    pub names: bool,
    /// Signed attributes have a signing time, and no binary signing time (RFC 9589 4).
    pub attributes: bool,
    /// A route origin attestation has IP version 4 in front of IP version 6, which is recommended (RFC 9582 4.3.3).
    pub families: bool,
}

impl Strictness {
    /// All of them are asked.
    pub fn all() -> Strictness
        ensures { result ≡ all_strict }
    {
        Strictness {
            names: true,
            attributes: true,
            families: true,
        }
    }
}

/// None of them is asked.
impl Default for Strictness {
    ghost use Rattle.std.specs.Prelude.{◌≡◌};
    ghost use Rattle.rpki_objects.specs.Strictness.{none_strict};

    ghost is_default = { λ s. s ≡ none_strict };

    fn default() -> Strictness {
        Strictness {
            names: false,
            attributes: false,
            families: false,
        }
    }
}
