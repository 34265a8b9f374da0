//! The parts of a line, each put behind a text in either form.
#![tactic(auto, unfolding(crate::specs::Part::part_text))]

ghost use Rattle.std.specs.Prelude.{◌≡◌, ◌++◌, codes, OnOk};
ghost use Rattle.hex.specs.Hex.{encode_lower};
ghost use Rattle.text_words.specs.Members.{member, quoted};
ghost use Rattle.answer_text.specs.Part.{Part, drawn_object, part_text};

use sdls_base::NoMemory;
use text_words::{
    put_further_number, put_further_word, put_number_member, put_octets, put_spaced,
    put_spaced_number, put_spaced_octets,
};

/// Writes a member behind others, whose value are hexadecimal digits.
fn put_further_digits(text: &mut Vec<u8>, name: &[u8], octets: &[u8]) -> Result<(), NoMemory>
    ensures { OnOk result
        (text.new.items ≡ text.old.items ++ (codes "," ++ member name.now (quoted (encode_lower octets.now)))) }
{
    let digits = hex::encode(*text.allocator(), octets)?;
    put_further_word(text, name, digits.as_bytes())
}

/// Writes a number by its name.
pub fn put_named(text: &mut Vec<u8>, form: Form, name: &[u8], number: u64) -> Result<(), NoMemory>
    ensures { OnOk result (text.new.items ≡ text.old.items ++ part_text form (Part.named name.now number)) }
{
    match form {
        Form::Words => {
            put_spaced(text, name)?;
            put_spaced_number(text, number)
        }
        Form::Json => put_further_number(text, name, number),
    }
}

/// Writes a number whose name the words leave out.
pub fn put_number(text: &mut Vec<u8>, form: Form, name: &[u8], number: u64) -> Result<(), NoMemory>
    ensures { OnOk result (text.new.items ≡ text.old.items ++ part_text form (Part.number name.now number)) }
{
    match form {
        Form::Words => put_spaced_number(text, number),
        Form::Json => put_further_number(text, name, number),
    }
}

/// Writes a word whose name the words leave out.
pub fn put_word(text: &mut Vec<u8>, form: Form, name: &[u8], word: &[u8]) -> Result<(), NoMemory>
    ensures { OnOk result (text.new.items ≡ text.old.items ++ part_text form (Part.word name.now word.now)) }
{
    match form {
        Form::Words => put_spaced(text, word),
        Form::Json => put_further_word(text, name, word),
    }
}

/// Writes octets by their name.
pub fn put_named_octets(
    text: &mut Vec<u8>,
    form: Form,
    name: &[u8],
    octets: &[u8],
) -> Result<(), NoMemory>
    ensures { OnOk result (text.new.items ≡ text.old.items ++ part_text form (Part.octets name.now octets.now)) }
{
    match form {
        Form::Words => {
            put_spaced(text, name)?;
            put_spaced_octets(text, octets)
        }
        Form::Json => put_further_digits(text, name, octets),
    }
}

/// Writes a number with its key as a JSON object.
fn put_drawn_object(text: &mut Vec<u8>, key: u64, number: u64) -> Result<(), NoMemory>
    ensures { OnOk result (text.new.items ≡ text.old.items ++ drawn_object key number) }
{
    put_octets(text, b"{")?;
    put_number_member(text, b"key", key)?;
    put_further_number(text, b"number", number)?;
    put_octets(text, b"}")
}

/// Writes the number that was drawn for a command, and its key.
pub fn put_drawn(text: &mut Vec<u8>, form: Form, key: u64, number: u64) -> Result<(), NoMemory>
    ensures { OnOk result (text.new.items ≡ text.old.items ++ part_text form (Part.drawn key number)) }
{
    match form {
        Form::Words => {
            put_spaced(text, b"drawn")?;
            put_spaced_number(text, key)?;
            put_spaced_number(text, number)
        }
        Form::Json => {
            put_octets(text, b",\"drawn\":")?;
            put_drawn_object(text, key, number)
        }
    }
}

/// How the line of an answer is printed.
#[derive(Clone, Copy, Debug, PartialEq, Eq)]
pub enum Form {
    /// As words, a space between two of them.
    Words,
    /// As a JSON object.
    Json,
}
