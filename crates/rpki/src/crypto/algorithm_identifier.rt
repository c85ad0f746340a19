//! Algorithm identifiers: an object identifier, and its parameters (RFC 5280 4.1.1.2).

ghost use Rattle.std.specs.Prelude.{◌≡◌, ◌≢◌, ◌↔◌, IsTrue};
ghost use Rattle.rpki_der.specs.declared.error.DecodeError.{DecodeError};
ghost use Rattle.rpki_der.specs.Prelude.{left, Takes, TakesAll, Reads};
ghost use Rattle.rpki.specs.AlgorithmFault.{identified, algorithm, parameters};

use rpki_der::{ConstOid, Constructed, DecodeError, Oid};

/// Reads the algorithm identifier of this object identifier, and returns whether its parameters, a NULL, are there.
///
/// The errors are those of a SEQUENCE; then `Content` for another identifier; then `Trailing` for other parameters.
pub(crate) fn take_algorithm(
    cons: &mut Constructed<'_>,
    expected: ConstOid,
) -> Result<bool, DecodeError>
    ensures { Takes (λ b. b) (algorithm expected.entry.0.now) (left cons.old) (left cons.new) result }
{
    let name = expected.0;
    cons.in_sequence(
        |contents|
            ensures { TakesAll (λ b. b) (identified name.entry.now) (left contents.old) (left contents.new) result }
        {
            contents.skip_oid_if(Oid(name))?;
            take_null_or_nothing(contents)
        },
    )
}

/// Whether it is exactly this object identifier.
pub(crate) fn is_named(found: &Oid<&[u8]>, expected: ConstOid) -> bool
    ensures { IsTrue result ↔ (found.now.0.now ≡ expected.entry.0.now) }
{
    found.0 == expected.0
}

/// Reads all of the contents: whether a NULL is there, and nothing else.
#[inline(always)]
pub(crate) fn take_null_or_nothing(contents: &mut Constructed<'_>) -> Result<bool, DecodeError>
    ensures { TakesAll (λ b. b) parameters (left contents.old) (left contents.new) result }
{
    let found = contents.take_opt_null()?;
    Ok(found.is_some())
}
