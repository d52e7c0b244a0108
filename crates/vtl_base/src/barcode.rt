//! Barcodes, the names of cartridges.
ghost use Rattle.std.specs.Prelude.{◌≡◌, ◌≤◌, ◌↔◌, IsTrue, IsOk, IfOk, length, take};
ghost use Rattle.std.specs.List.{All};
ghost use Rattle.vtl_base.specs.Barcode.{IsBarcode, is_symbol};

use crate::limits::MAX_BARCODE;
use std::marker::Model;
use thiserror::Error;

/// The error of `Barcode::parse`: the bytes are not a barcode.
#[derive(Clone, Copy, PartialEq, Eq, Debug, Error)]
#[error("a barcode has 1 to 16 of A to Z and 0 to 9")]
pub struct BadBarcode;

/// The name of a cartridge: 1 to 16 bytes, each `A` to `Z` or `0` to `9` (own). A contract sees these bytes.
#[derive(Clone, Debug, Drop)]
pub struct Barcode {
    symbols: [u8; MAX_BARCODE],
    count: usize,
}

impl Model for Barcode {
    ghost use Rattle.std.specs.Prelude.{ℕ, List, take, ◌≤◌};
    ghost use Rattle.vtl_base.specs.Barcode.{IsBarcode};
    ghost use Rattle.vtl_base.specs.declared.limits.TheConstants.{MAX_BARCODE};

    ghost Value = { List ℕ };

    ghost view = { λ b. take b.count b.symbols };

    ghost invariant = { λ b. (b.count ≤ MAX_BARCODE) × IsBarcode (take b.count b.symbols) };
}

fn is_symbol(byte: u8) -> bool
    ensures { result ≡ is_symbol byte }
{
    byte.is_ascii_uppercase() || byte.is_ascii_digit()
}

fn are_symbols(bytes: &[u8]) -> bool
    ensures { IsTrue result ↔ All (λ byte. IsTrue (is_symbol byte)) bytes.now }
{
    bytes.iter().all(|&byte| is_symbol(byte))
}

// The bytes, filled up with spaces.
fn padded(bytes: &[u8]) -> [u8; MAX_BARCODE]
    requires { length bytes.now ≤ MAX_BARCODE }
    ensures { take (length bytes.now) result ≡ bytes.now }
{
    let mut symbols = [b' '; MAX_BARCODE];
    symbols[..bytes.len()].copy_from_slice(bytes);
    symbols
}

impl Barcode {
    /// Returns the barcode with these bytes, or `BadBarcode` if they are not 1 to 16 bytes, each `A` to `Z` or `0` to
    /// `9`.
    pub fn parse(bytes: &[u8]) -> Result<Self, BadBarcode>
        ensures valid { IsOk result ↔ IsBarcode bytes.now }
        ensures value { IfOk result (λ barcode. barcode ≡ bytes.now) }
    {
        if bytes.is_empty() || bytes.len() > MAX_BARCODE || !are_symbols(bytes) {
            return Err(BadBarcode);
        }
        Ok(Barcode {
            symbols: padded(bytes),
            count: bytes.len(),
        })
    }

    /// The bytes of the barcode, 1 to 16.
    pub fn as_bytes(&self) -> &[u8]
        ensures bytes { result.now ≡ self.now }
        ensures valid { IsBarcode self.now }
    {
        &self.symbols[..self.count]
    }
}
