//! Names.

ghost use Rattle.std.specs.Prelude.{◌≡◌, ◌<◌, true, IfOk, IfErr, IsTrue, MatchResult};
ghost use Rattle.rpki_der.specs.Reading.{SpellsNothing, UnlessMemory};
ghost use Rattle.rpki.specs.Name.{IsName, SpellsNameOctets};
ghost use Rattle.rpki_c.specs.Status.{rule_number};
ghost use Rattle.rpki_c.specs.Names.{IsOfProfile, BreaksProfile, IsWholeNameFault, IsInspected};

use crate::status::{
    ATTRIBUTE_NOT_PERMITTED, MISSING_COMMON_NAME, NO_PROFILE, SECOND_COMMON_NAME,
    SECOND_ORGANIZATION_NAME, SECOND_SERIAL_NUMBER, STRING_NOT_PERMITTED,
};
use rpki::repository::x509::{NameRule, NameView};
use rpki_der::{Constructed, DecodeError};

/// A name, and nothing else.
fn read_name(octets: &[u8]) -> Result<NameView<'_>, DecodeError>
    ensures name { IfOk result (λ n. (n ≡ octets.now) × IsName octets.now) }
    ensures refused { IfErr result (λ e. UnlessMemory e (SpellsNothing SpellsNameOctets octets.now)
        × IsWholeNameFault octets.now e) }
{
    let mut cons = Constructed::from_slice(octets);
    let name = NameView::take_from(&mut cons)?;
    cons.finish()?;
    Ok(name)
}

/// How a rule is passed.
fn rule_number(rule: NameRule) -> u8
    ensures { result ≡ rule_number rule }
{
    match rule {
        NameRule::MissingCommonName => MISSING_COMMON_NAME,
        NameRule::SecondCommonName => SECOND_COMMON_NAME,
        NameRule::SecondSerialNumber => SECOND_SERIAL_NUMBER,
        NameRule::SecondOrganizationName => SECOND_ORGANIZATION_NAME,
        NameRule::OtherString => STRING_NOT_PERMITTED,
        NameRule::OtherAttribute => ATTRIBUTE_NOT_PERMITTED,
    }
}

/// Tests the name by the profile of this number; returns the rule that it breaks first.
fn inspect(name: &NameView<'_>, profile: u8) -> Result<(), NameRule>
    requires { profile < 2 }
    ensures { MatchResult result (λ _. IsOfProfile profile name.now) (λ rule. BreaksProfile profile rule name.now) }
{
    match profile {
        0 => name.test_rpki(),
        _ => name.test_router(),
    }
}

/// Reads a name (RFC 5280 4.1.2.4), and tests it by the profile of this number: 0 is that of the RPKI (RFC 6487 4.4),
/// 1 that of routers (RFC 8209 3.1.1).
///
/// The status is 0; 32 to 37 where the name is not of the profile, and `strict` is true, by the rule that it breaks
/// first, from the left; 12 for another number of a profile, before the octets are looked at; else the number of the
/// error. Allocates nothing.
#[unsafe(no_mangle)]
pub extern "C" fn rpki_name_inspect(octets: &[u8], profile: u8, strict: bool) -> u8
    ensures { IsInspected octets.now profile strict result }
{
    if profile > 1 {
        return NO_PROFILE;
    }
    let name = match read_name(octets) {
        Ok(name) => name,
        Err(e) => return e.number(),
    };
    if !strict {
        return 0;
    }
    match inspect(&name, profile) {
        Ok(()) => 0,
        Err(rule) => rule_number(rule),
    }
}
