// Words as bytes in hexadecimal.
ghost use Rattle.std.specs.Prelude.{◌≡◌, IfOk, vec_items};
ghost use Rattle.std.specs.Option.{option_map};
ghost use Rattle.words.specs.Hex.{hex, pairs, byte as byte_of, nibble as nibble_of};

use std::alloc::{AllocError, Global};

// The bytes that a word writes, two digits of either case for each, or a `-` alone for no bytes; none, if it is no such word.
pub fn read_hex(heap: Global, word: &[u8]) -> Result<Option<Vec<u8>>, AllocError>
    ensures { IfOk result (λ o. option_map vec_items o ≡ hex word.now) }
{
    match word {
        [] => Ok(None),
        [b'-'] => Ok(Some(Vec::new(heap))),
        _ => read_pairs(heap, word),
    }
}

fn read_pairs(heap: Global, word: &[u8]) -> Result<Option<Vec<u8>>, AllocError>
    ensures { IfOk result (λ o. option_map vec_items o ≡ pairs word.now) }
{
    let (pairs, []) = word.as_chunks::<2>() else {
        return Ok(None);
    };
    let mut bytes = Vec::new(heap);
    for [c, d] in pairs {
        let Some(b) = byte(*c, *d) else {
            return Ok(None);
        };
        bytes.push(b)?;
    }
    Ok(Some(bytes))
}

// The byte of two digits, the higher first.
fn byte(c: u8, d: u8) -> Option<u8>
    ensures { result ≡ byte_of c d }
{
    let high = nibble(c)?;
    let low = nibble(d)?;
    Some(high * 16 + low)
}

fn nibble(c: u8) -> Option<u8>
    ensures { result ≡ nibble_of c }
{
    match c {
        b'0'..=b'9' => Some(c - b'0'),
        b'A'..=b'F' => Some(c - b'A' + 10),
        b'a'..=b'f' => Some(c - b'a' + 10),
        _ => None,
    }
}
