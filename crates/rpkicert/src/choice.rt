//! Which profile a certificate is to have.

ghost use Rattle.std.specs.Prelude.{◌≡◌};
ghost use Rattle.rpkicert.specs.Chosen.{is_named, profile_by, IsChosen, IsMark, IsOwnProfile};
ghost use Rattle.rpkicert.specs.Request.{choice_of, profile_of};

use rpki_cert::{CertRule, Profile, TbsCert};

/// The profile that a certificate is to have.
#[derive(Clone, Copy, Debug)]
pub enum Choice {
    /// This one.
    Named(Profile),
    /// The one of what the certificate says that it is.
    Auto,
}

impl Choice {
    /// Whether it is a profile that was named.
    pub fn is_named(self) -> bool
        ensures { result ≡ is_named self }
    {
        match self {
            Choice::Named(_) => true,
            Choice::Auto => false,
        }
    }
}

/// The profile of this name.
fn profile_of(word: &[u8]) -> Option<Profile>
    ensures { result ≡ profile_of word.now }
{
    if word == b"ta".as_slice() {
        Some(Profile::Ta)
    } else if word == b"ca".as_slice() {
        Some(Profile::Ca)
    } else if word == b"ee".as_slice() {
        Some(Profile::Ee)
    } else if word == b"detached".as_slice() {
        Some(Profile::DetachedEe)
    } else if word == b"router".as_slice() {
        Some(Profile::Router)
    } else {
        None
    }
}

/// What the word asks for: the profile of this name, or by `auto` the certificate's own.
pub fn choice_of(word: &[u8]) -> Option<Choice>
    ensures { result ≡ choice_of word.now }
{
    if word == b"auto".as_slice() {
        return Some(Choice::Auto);
    }
    match profile_of(word) {
        Some(profile) => Some(Choice::Named(profile)),
        None => None,
    }
}

/// Whether the certificate obeys the rule, its names as strictly as they can be.
fn obeys(tbs: &TbsCert, rule: CertRule) -> bool
    ensures { IsMark tbs.now rule result }
{
    match tbs.inspect_rule(true, rule) {
        Ok(()) => true,
        Err(_) => false,
    }
}

/// The profile of an end entity, or of an authority: of a router, without subject information access; self-issued, with
/// an authority key identifier of its own key or none.
fn profile_by(end: bool, router: bool, detached: bool, self_issued: bool, own_key: bool) -> Profile
    ensures { result ≡ profile_by end router detached self_issued own_key }
{
    if end {
        if router {
            return Profile::Router;
        }
        if detached {
            return Profile::DetachedEe;
        }
        return Profile::Ee;
    }
    if self_issued && own_key {
        return Profile::Ta;
    }
    Profile::Ca
}

/// The profile of what the certificate says that it is.
fn own_profile(tbs: &TbsCert) -> Profile
    ensures { IsOwnProfile tbs.now result }
{
    let end = obeys(tbs, CertRule::NoBasicConstraints);
    let router = obeys(tbs, CertRule::RouterPurpose);
    let detached = obeys(tbs, CertRule::NoSubjectAccess);
    let self_issued = obeys(tbs, CertRule::SelfIssued);
    let own_key = obeys(tbs, CertRule::OwnAuthority);
    profile_by(end, router, detached, self_issued, own_key)
}

/// The profile that the certificate is to have.
pub fn chosen(choice: Choice, tbs: &TbsCert) -> Profile
    ensures { IsChosen choice tbs.now result }
{
    match choice {
        Choice::Named(profile) => profile,
        Choice::Auto => own_profile(tbs),
    }
}
