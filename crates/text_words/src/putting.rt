//! Octets, numbers and words, each put behind a text.
//! The members of a JSON object, each put behind a text.
ghost use Rattle.std.specs.Prelude.{◌≡◌, ◌++◌, decimal, OnOk, codes};
ghost use Rattle.hex.specs.Hex.{encode_lower};
ghost use Rattle.text_words.specs.Words.{octets_word, spaced};
ghost use Rattle.text_words.specs.Members.{member, quoted};

use itoa::Buffer;
use sdls_base::NoMemory;

/// Writes octets behind the text.
pub fn put_octets(text: &mut Vec<u8>, octets: &[u8]) -> Result<(), NoMemory>
    ensures { OnOk result (text.new.items ≡ text.old.items ++ octets.now) }
{
    text.extend_from_slice(octets)?;
    Ok(())
}

/// Writes a number behind the text, in decimal digits.
pub fn put_decimal(text: &mut Vec<u8>, number: u64) -> Result<(), NoMemory>
    ensures { OnOk result (text.new.items ≡ text.old.items ++ decimal number) }
{
    let mut buffer = Buffer::new();
    put_octets(text, buffer.format(number).as_bytes())
}

/// Writes a word behind a space.
pub fn put_spaced(text: &mut Vec<u8>, word: &[u8]) -> Result<(), NoMemory>
    ensures { OnOk result (text.new.items ≡ text.old.items ++ spaced word.now) }
{
    put_octets(text, b" ")?;
    put_octets(text, word)
}

/// Writes a number behind a space, in decimal digits.
pub fn put_spaced_number(text: &mut Vec<u8>, number: u64) -> Result<(), NoMemory>
    ensures { OnOk result (text.new.items ≡ text.old.items ++ spaced (decimal number)) }
{
    put_octets(text, b" ")?;
    put_decimal(text, number)
}

/// Writes octets behind a space, in hexadecimal digits.
pub fn put_spaced_digits(text: &mut Vec<u8>, octets: &[u8]) -> Result<(), NoMemory>
    ensures { OnOk result (text.new.items ≡ text.old.items ++ spaced (encode_lower octets.now)) }
{
    let digits = hex::encode(*text.allocator(), octets)?;
    put_spaced(text, digits.as_bytes())
}

/// Writes octets as a word behind a space: hexadecimal digits, or - for none.
pub fn put_spaced_octets(text: &mut Vec<u8>, octets: &[u8]) -> Result<(), NoMemory>
    ensures { OnOk result (text.new.items ≡ text.old.items ++ spaced (octets_word octets.now)) }
{
    if octets.is_empty() {
        return put_spaced(text, b"-");
    }
    put_spaced_digits(text, octets)
}

/// Writes a text between quotation marks. None that is put has a mark of its own.
pub fn put_quoted(text: &mut Vec<u8>, word: &[u8]) -> Result<(), NoMemory>
    ensures { OnOk result (text.new.items ≡ text.old.items ++ quoted word.now) }
{
    put_octets(text, b"\"")?;
    put_octets(text, word)?;
    put_octets(text, b"\"")
}

/// Writes the name of a member, and the colon.
pub fn put_name(text: &mut Vec<u8>, name: &[u8]) -> Result<(), NoMemory>
    ensures { OnOk result (text.new.items ≡ text.old.items ++ (codes "\"" ++ (name.now ++ codes "\":"))) }
{
    put_octets(text, b"\"")?;
    put_octets(text, name)?;
    put_octets(text, b"\":")
}

/// Writes a member whose value is a number.
pub fn put_number_member(text: &mut Vec<u8>, name: &[u8], number: u64) -> Result<(), NoMemory>
    ensures { OnOk result (text.new.items ≡ text.old.items ++ member name.now (decimal number)) }
{
    put_name(text, name)?;
    put_decimal(text, number)
}

/// Writes a member whose value is a string.
pub fn put_word_member(text: &mut Vec<u8>, name: &[u8], word: &[u8]) -> Result<(), NoMemory>
    ensures { OnOk result (text.new.items ≡ text.old.items ++ member name.now (quoted word.now)) }
{
    put_name(text, name)?;
    put_quoted(text, word)
}

/// Writes a member behind others, whose value is a number.
pub fn put_further_number(text: &mut Vec<u8>, name: &[u8], number: u64) -> Result<(), NoMemory>
    ensures { OnOk result (text.new.items ≡ text.old.items ++ (codes "," ++ member name.now (decimal number))) }
{
    put_octets(text, b",")?;
    put_number_member(text, name, number)
}

/// Writes a member behind others, whose value is a string.
pub fn put_further_word(text: &mut Vec<u8>, name: &[u8], word: &[u8]) -> Result<(), NoMemory>
    ensures { OnOk result (text.new.items ≡ text.old.items ++ (codes "," ++ member name.now (quoted word.now))) }
{
    put_octets(text, b",")?;
    put_word_member(text, name, word)
}
