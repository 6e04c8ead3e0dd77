ghost use Rattle.std.specs.Prelude.{◌≡◌};
ghost use Rattle.dice.specs.Names.{extension_of, algorithm_named};

use crate::kinds::Extension;
use claims::kinds::Algorithm;

// What an extension of an object identifier holds.
pub(crate) fn extension_of(name: &[u8]) -> Extension
    ensures { result ≡ extension_of name.now }
{
    match name {
        b"\x67\x81\x05\x05\x04\x01" => Extension::TcbInfo,
        b"\x67\x81\x05\x05\x04\x04" => Extension::Ueid,
        _ => Extension::Other,
    }
}

// The hash algorithm of an object identifier. A table of its own: with other tables it shares the shape of a match, and no row.
pub(crate) fn algorithm_named(name: &[u8]) -> Option<Algorithm>
    ensures { result ≡ algorithm_named name.now }
{
    match name {
        b"\x60\x86\x48\x01\x65\x03\x04\x02\x01" => Some(Algorithm::Sha256),
        b"\x60\x86\x48\x01\x65\x03\x04\x02\x02" => Some(Algorithm::Sha384),
        b"\x60\x86\x48\x01\x65\x03\x04\x02\x03" => Some(Algorithm::Sha512),
        _ => None,
    }
}
