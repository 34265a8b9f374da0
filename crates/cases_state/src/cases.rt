// Cases of frames, security headers and plain types, which depend on no state.
use crate::changes::load_of;
use crate::{reading, shielding};
use case_lines::{Digits, Page, Words, channel, key, number, spi, suite};
use sdls_base::{
    Change, Direction, FrameFault, KeyId, KeyState, NoMemory, SaState, Suite, fecf, same_octets,
};
use sdls_header::{SecurityHeader, Split, Vector, masked, read_spi, split, write_header};
use std::fmt::Display;

/// Writes a value, or that there is none.
fn write_found<D: Display + Drop>(found: Option<D>, page: &mut Page) {
    match found {
        Some(value) => write!(page, "{value}"),
        None => page.push_str("none"),
    }
}

fn write_split(pieces: &Split<'_>, page: &mut Page) {
    write!(page, "header {} vector ", Digits(pieces.header));
    match &pieces.vector {
        Vector::Sequence(number) => write!(page, "{number}"),
        Vector::Wide { device, number } => write!(page, "{}:{number}", Digits(device)),
    }
    let (field, mac) = (Digits(pieces.field), Digits(pieces.mac));
    write!(page, " field {field} mac {mac}");
}

/// Writes a room taken apart: `SUITE OCTETS`.
fn answer_room(words: &mut Words<'_>, page: &mut Page) {
    let suite = suite(words).unwrap_or(Suite::Cmac);
    match split(&page.octets(words), suite) {
        Some(pieces) => write_split(&pieces, page),
        None => page.push_str("none"),
    }
}

/// Writes a header as it is written into 15 octets of 55: `SUITE SPI NUMBER`.
fn answer_header(words: &mut Words<'_>, page: &mut Page) {
    let suite = suite(words);
    let Some(spi) = spi(words) else {
        return page.push_str("no index");
    };
    let number = number(words).unwrap_or(0);
    let vector = match suite {
        Some(Suite::Gcm) => Vector::Wide {
            device: [0xD0, 0, 0, 1],
            number,
        },
        _ => Vector::Sequence(u32::try_from(number).unwrap_or(0)),
    };
    let mut out = [0x55; 15];
    let count = write_header(&SecurityHeader { spi, vector }, &mut out);
    write!(page, "{count} of {}", Digits(&out));
}

/// Writes a prefix under a mask.
fn write_masked(mask: &[u8], prefix: &[u8], page: &mut Page) {
    let Ok(mut out) = vec![in page.alloc(); 0x55; prefix.len()] else {
        return page.spoil();
    };
    masked(prefix, mask, out.as_mut_slice());
    page.push_digits(&out);
}

/// Writes a prefix under a mask, or whether two texts of octets are the same.
fn answer_pair(word: &str, words: &mut Words<'_>, page: &mut Page) {
    let (left, right) = (page.piece(words), page.piece(words));
    match word {
        "mask" => write_masked(&left, &right, page),
        _ => write!(page, "{}", same_octets(&left, &right)),
    }
}

/// Writes the error control field of octets.
fn answer_fecf(words: &mut Words<'_>, page: &mut Page) {
    let field = fecf(&page.octets(words));
    write!(page, "{field:04x}");
}

/// Writes a load of keys as it is printed.
fn write_load(load: &Change, page: &mut Page) {
    if let Change::Load(items) = load {
        write!(page, "{items:?} {load:?}");
    }
}

/// Writes what a key serves for and the first number that it does not, or its load as it is printed.
fn answer_key(word: &str, id: KeyId, octets: Vec<u8>, page: &mut Page) {
    match word {
        "key" => write!(page, "{:?} below {}", id.class(), id.end()),
        _ => write_load(&load_of(id, octets, page), page),
    }
}

/// Writes the numbers of the last states, direction, suite and frame fault, and two faults as texts.
fn answer_numbers(page: &mut Page) {
    let (key, sa) = (KeyState::Destroyed as u8, SaState::Operational as u8);
    let (direction, suite) = (Direction::Receive as u8, Suite::Gcm as u8);
    let (fault, spare) = (FrameFault::Fecf as u8, FrameFault::Spare);
    write!(page, "{key} {sa} {direction} {suite} {fault}");
    write!(page, "; {spare}; {NoMemory}");
}

/// Writes what a case of plain types answers.
fn answer_plain(word: &str, words: &mut Words<'_>, page: &mut Page) {
    match word {
        "spi" => write_found(spi(words).map(|spi| spi.get()), page),
        "channel" => write_found(channel(words).map(|channel| channel.get()), page),
        "numbers" => answer_numbers(page),
        "key" | "printed" => match key(words) {
            Some(id) => answer_key(word, id, page.octets(words), page),
            None => page.push_str("none"),
        },
        _ => page.push_str("no case"),
    }
}

/// Writes what a case answers that is none of a frame alone.
fn answer_word(word: &str, words: &mut Words<'_>, page: &mut Page) {
    match word {
        "protect" | "open" | "bits" => shielding::answer(word, words, page),
        "index" => write_found(read_spi(&page.octets(words)), page),
        "room" => answer_room(words, page),
        "header" => answer_header(words, page),
        "mask" | "same" => answer_pair(word, words, page),
        "fecf" => answer_fecf(words, page),
        _ => answer_plain(word, words, page),
    }
}

/// Writes what a case answers.
pub fn answer(word: &str, rest: &str, page: &mut Page) {
    let mut words = rest.split_whitespace();
    match shielding::layout_of(word, &mut words) {
        Some(layout) => reading::answer(layout, &mut words, page),
        None => answer_word(word, &mut words, page),
    }
}
