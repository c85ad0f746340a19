//! A provider for tests and for the program: real digests, and signatures from a table.

ghost use Rattle.std.specs.Prelude.{◌≡◌};
ghost use Rattle.std.specs.List.{list_any};
ghost use Rattle.rpkibasic.specs.Table.{row_of, rows_of, is_row, stands};

use rpki::crypto::Provider;
use rpki_digests::Digests;
use std::marker::Model;

/// The bits of a key, a message, and the signature of that message by that key.
pub type Row = (Vec<u8>, Vec<u8>, Vec<u8>);

/// A provider that computes digests by SHA-1 and SHA-256 (FIPS 180-4), and looks signatures up in a table.
///
/// It computes no signature: RSA and ECDSA signatures verify exactly where the bits, the message and the signature
/// are together in a row.
#[derive(Drop)]
pub struct BenchProvider {
    table: Vec<Row>,
}

/// The rows of the table, in order.
impl Model for BenchProvider {
    ghost use Rattle.std.specs.Prelude.{ℕ, List};
    ghost use Rattle.rpkibasic.specs.Table.{rows_of};

    ghost Value = { List (List ℕ × List ℕ × List ℕ) };

    ghost view = { λ p. rows_of p.table.items };
}

impl BenchProvider {
    /// The provider with this table. Allocates nothing.
    pub fn new(table: Vec<Row>) -> BenchProvider
        ensures { result ≡ rows_of table.items }
    {
        BenchProvider { table }
    }

    /// Whether the three are in a row of the table.
    fn has(&self, bits: &[u8], message: &[u8], signature: &[u8]) -> bool
        ensures { result ≡ stands self.now bits.now message.now signature.now }
    {
        is_among(self.table.as_slice(), bits, message, signature)
    }
}

/// Whether the three are one of the rows.
fn is_among(table: &[Row], bits: &[u8], message: &[u8], signature: &[u8]) -> bool
    ensures { result ≡ list_any (λ row. is_row bits.now message.now signature.now (row_of row)) table.now }
{
    table
        .iter()
        .any(|row| is_row(row, bits, message, signature))
}

/// Whether the row is these three.
fn is_row(row: &Row, bits: &[u8], message: &[u8], signature: &[u8]) -> bool
    ensures { result ≡ is_row bits.now message.now signature.now (row_of row.now) }
{
    row.0.as_slice() == bits && row.1.as_slice() == message && row.2.as_slice() == signature
}

impl Provider for BenchProvider {
    ghost use Rattle.std.specs.Prelude.{IsTrue};
    ghost use Rattle.sha1.specs.Sha1.{sha1};
    ghost use Rattle.sha2.specs.Sha256.{sha256};
    ghost use Rattle.rpkibasic.specs.Table.{stands};

    ghost sha1_of = { λ p octets. sha1 octets };

    ghost sha256_of = { λ p octets. sha256 octets };

    ghost rsa_of = { λ p bits message signature. IsTrue (stands p bits message signature) };

    ghost ecdsa_of = { λ p bits message signature. IsTrue (stands p bits message signature) };

    fn sha1(&self, octets: &[u8]) -> [u8; 20] {
        Digests.sha1(octets)
    }

    fn sha256(&self, octets: &[u8]) -> [u8; 32] {
        Digests.sha256(octets)
    }

    fn rsa_check(&self, bits: &[u8], message: &[u8], signature: &[u8]) -> bool {
        self.has(bits, message, signature)
    }

    fn ecdsa_check(&self, bits: &[u8], message: &[u8], signature: &[u8]) -> bool {
        self.has(bits, message, signature)
    }
}
