//! The words of a line, taken from left to right.
ghost use Rattle.std.specs.Prelude.{◌≡◌, ◌≢◌, ◌^◌, ◌<◌, ◌≤◌, ℕ, List, [], ◌∷◌, ◌++◌, codes, decimal, length, Some};
ghost use Rattle.std.specs.Prelude.{None, IsOk, IfOk, IfSome, MatchOption, MatchResult, IsTrue};
ghost use Rattle.std.specs.Option.{option_map_or};
ghost use Rattle.hex.specs.Hex.{encode_lower, IsBytes};
ghost use Rattle.unit_plan.specs.Lines.{words_of};
ghost use Rattle.replay_window.specs.WindowField.{IsWindowField};
ghost use Rattle.ep_codec.specs.Field.{is_key, is_spi};
ghost use Rattle.text_words.specs.Words.{octets_word};
ghost use Rattle.input_text.specs.Plain.{said_words};
ghost use Rattle.input_text.specs.Command.{window_words};
ghost use Rattle.input_text.specs.Fields.{AnswersField, IsFault, IsNoMemory, AreRecorded};

use crate::fault::{Expected, LineError, LineFault, Seen};
use hex::FromHexError;
use record_io::MOST_RECORD_OCTETS;
use replay_window::{MOST_BACK, window_field};
use sdls_base::{KeyId, MOST_WINDOW, Octets, Spi};
use std::alloc::{AllocError, Global};
use std::marker::Model;
use text_words::number_spelled;
use unit_plan::Words;

/// Where a part of a line stands, for messages.
#[derive(Clone, Copy, Drop)]
struct PartPlace {
    /// How many octets stand before it, and how many it has.
    at: usize,
    len: usize,
    /// How many octets stand before the part behind it.
    next: usize,
}

impl PartPlace {
    /// Passes to the next part, which has so many octets.
    fn pass(&mut self, len: usize) {
        self.at = self.next;
        self.len = len;
        self.next = self.next.saturating_add(len).saturating_add(1);
    }

    /// Passes to the end of the line.
    fn end(&mut self) {
        self.at = self.next.saturating_sub(1);
        self.len = 0;
    }
}

/// Takes the next word from these, if there is one, and passes to it.
fn take_word<'a>(words: &mut Words<'a>, place: &mut PartPlace) -> Option<&'a [u8]>
    ensures { MatchOption result ((said_words words.old ≡ []) × (said_words words.new ≡ []))
        (λ word. said_words words.old ≡ word.now ∷ said_words words.new) }
{
    while let Some(part) = words.next() {
        place.pass(part.len());
        match part.first() {
            None => {}
            Some(b'#') => {
                place.len = 0;
                place.next = place.at;
                *words = Words::of(&[]);
                return None;
            }
            Some(_) => return Some(part),
        }
    }
    place.end();
    None
}

/// Takes the word that was given back, or else the next one from these, if there is one.
fn take_next<'a>(
    ahead: &mut Option<&'a [u8]>,
    words: &mut Words<'a>,
    place: &mut PartPlace,
) -> Option<&'a [u8]>
    ensures empty { ahead.new ≡ None }
    ensures taken { let later = said_words words.old in
        let left = option_map_or (λ word. word.now ∷ later) ahead.old later in
        MatchOption result ((left ≡ []) × (said_words words.new ≡ []))
        (λ word. left ≡ word.now ∷ said_words words.new) }
{
    match ahead.take() {
        Some(word) => Some(word),
        None => take_word(words, place),
    }
}

/// The words that are left of a line, which it takes from the line as it is read. It counts those that were taken, and
/// knows where the last one stands, for messages.
#[derive(Drop)]
pub(crate) struct Fields<'a> {
    pub alloc: Global,
    line: &'a [u8],
    plain: &'a [u8],
    words: Words<'a>,
    /// A word that was taken, and given back.
    ahead: Option<&'a [u8]>,
    taken: usize,
    place: PartPlace,
}

impl<'a> Model for Fields<'a> {
    ghost use Rattle.std.specs.Prelude.{◌∷◌, List, ℕ};
    ghost use Rattle.std.specs.Option.{option_map_or};
    ghost use Rattle.input_text.specs.Plain.{said_words};

    ghost Value = { List (List ℕ) };

    ghost view = { λ fields. option_map_or (λ word. word.now ∷ said_words fields.words) fields.ahead
        (said_words fields.words) };
}

/// The octets that the word spells in hexadecimal digits.
fn octets_of(alloc: Global, word: &[u8]) -> Result<Option<Vec<u8>>, AllocError>
    ensures read { IfOk result (λ read. IfSome read
        (λ octets. (word.now ≡ encode_lower octets.items) × IsBytes octets.items)) }
    ensures only { (octets : List ℕ) → IsBytes octets → word.now ≡ encode_lower octets
        → IfOk result (λ read. MatchOption read ⊥ (λ found. found.items ≡ octets)) }
{
    match hex::decode(alloc, word) {
        Ok(octets) => {
            let spelled = hex::encode(alloc, octets.as_slice())?;
            if spelled.as_bytes() == word {
                Ok(Some(octets))
            } else {
                Ok(None)
            }
        }
        Err(error) => match error {
            FromHexError::OutOfMemory => Err(AllocError),
            _ => Ok(None),
        },
    }
}

/// The octets of a record that the word spells: 1 to 2,048 in hexadecimal digits, or - for none.
fn record_of(alloc: Global, word: &[u8]) -> Result<Option<Octets>, AllocError>
    ensures read { IfOk result (λ read. IfSome read (λ octets. (word.now ≡ octets_word octets) × AreRecorded octets)) }
    ensures only { (octets : List ℕ) → AreRecorded octets → word.now ≡ octets_word octets
        → IfOk result (λ read. read ≡ Some octets) }
{
    if word == b"-".as_slice() {
        return Ok(Some(Octets::new(Vec::new(alloc))));
    }
    let Some(octets) = octets_of(alloc, word)? else {
        return Ok(None);
    };
    if octets.is_empty() || octets.len() > usize::from(MOST_RECORD_OCTETS) {
        return Ok(None);
    }
    Ok(Some(Octets::new(octets)))
}

impl<'a> Fields<'a> {
    /// The words of a line, and of the line as it is read.
    pub fn of(alloc: Global, line: &'a [u8], plain: &'a [u8]) -> Fields<'a>
        ensures { result ≡ said_words (words_of plain.now) }
    {
        Fields {
            alloc,
            line,
            plain,
            words: Words::of(plain),
            ahead: None,
            taken: 0,
            place: PartPlace {
                at: 0,
                len: 0,
                next: 0,
            },
        }
    }

    /// The fault of the word that was taken last, or of the end.
    pub fn fault(&self, expected: Expected) -> LineError
        ensures { IsFault result }
    {
        let end = self.place.at.saturating_add(self.place.len);
        let word = self.line.get(self.place.at..end).unwrap_or(&[]);
        LineError::Fault(LineFault {
            word: self.taken,
            column: self.place.at.saturating_add(1),
            seen: Seen::of(word),
            expected,
        })
    }

    /// The fault of the word that is the last but so many, the end counted.
    pub fn fault_before(&self, back: usize, expected: Expected) -> LineError
        ensures { IsFault result }
    {
        let mut fields = Fields::of(self.alloc, self.line, self.plain);
        for _ in 0..self.taken.saturating_sub(back) {
            let _ = fields.next();
        }
        fields.fault(expected)
    }

    /// Takes the next word, if there is one.
    pub fn next(&mut self) -> Option<&'a [u8]>
        ensures { MatchOption result ((self.old ≡ []) × (self.new ≡ [])) (λ word. self.old ≡ word.now ∷ self.new) }
    {
        self.taken = self.taken.saturating_add(1);
        take_next(&mut self.ahead, &mut self.words, &mut self.place)
    }

    /// Takes the word `back`, if it is the next.
    fn takes_back(&mut self) -> bool
        ensures taken { IsTrue result → self.old ≡ codes "back" ∷ self.new }
        ensures left { ¬ IsTrue result → self.new ≡ self.old }
        ensures only { (rest : List (List ℕ)) → self.old ≡ codes "back" ∷ rest → IsTrue result }
    {
        match take_next(&mut self.ahead, &mut self.words, &mut self.place) {
            Some(word) if word == b"back".as_slice() => {
                self.taken = self.taken.saturating_add(1);
                true
            }
            word => {
                self.ahead = word;
                false
            }
        }
    }

    /// Takes a number.
    pub fn number(&mut self, expected: Expected) -> Result<u64, LineError>
        ensures read { IfOk result (λ n. self.old ≡ decimal n ∷ self.new) }
        ensures only { (n : ℕ) (rest : List (List ℕ)) → n < 2 ^ 64 → self.old ≡ decimal n ∷ rest
            → AnswersField result n }
    {
        let Some(word) = self.next() else {
            return Err(self.fault(expected));
        };
        match number_spelled(word) {
            Some(n) => Ok(n),
            None => Err(self.fault(expected)),
        }
    }

    /// Takes a number within these bounds.
    pub fn bounded(&mut self, expected: Expected, least: u64, most: u64) -> Result<u64, LineError>
        ensures read { IfOk result (λ n. (self.old ≡ decimal n ∷ self.new) × (least ≤ n) × (n ≤ most)) }
        ensures only { (n : ℕ) (rest : List (List ℕ)) → least ≤ n → n ≤ most → self.old ≡ decimal n ∷ rest
            → AnswersField result n }
    {
        let n = self.number(expected)?;
        if n < least || most < n {
            return Err(self.fault(expected));
        }
        Ok(n)
    }

    /// Takes a window: its width, and its back window behind the word `back`, if it has one.
    pub fn window(&mut self) -> Result<u64, LineError>
        ensures read { IfOk result (λ window. (self.old ≡ window_words window ++ self.new) × IsWindowField window) }
        ensures only { (window : ℕ) (rest : List (List ℕ)) → IsWindowField window
            → ((words : List (List ℕ)) → rest ≢ codes "back" ∷ words) → self.old ≡ window_words window ++ rest
            → AnswersField result window }
    {
        let width = self.bounded(Expected::Window, 1, MOST_WINDOW)?;
        if !self.takes_back() {
            return Ok(width);
        }
        let back = self.bounded(Expected::Back, 1, u64::from(MOST_BACK))?;
        Ok(window_field(back as u8, width))
    }

    /// The key that a word names, which was taken last.
    pub fn key_of(&self, word: &[u8]) -> Result<KeyId, LineError>
        ensures read { IfOk result (λ n. (word.now ≡ decimal n) × IsTrue (is_key n)) }
        ensures only { (n : ℕ) → IsTrue (is_key n) → word.now ≡ decimal n → AnswersField result n }
    {
        match number_spelled(word) {
            Some(n) if n <= 65_535 => match KeyId::new(n as u16) {
                Some(key) => Ok(key),
                None => Err(self.fault(Expected::Key)),
            },
            _ => Err(self.fault(Expected::Key)),
        }
    }

    /// The channel that a word names, which was taken last.
    pub fn channel_of(&self, word: &[u8]) -> Result<u8, LineError>
        ensures read { IfOk result (λ n. (word.now ≡ decimal n) × (n ≤ 63)) }
        ensures only { (n : ℕ) → n ≤ 63 → word.now ≡ decimal n → AnswersField result n }
    {
        match number_spelled(word) {
            Some(n) if n <= 63 => Ok(n as u8),
            _ => Err(self.fault(Expected::Channel)),
        }
    }

    /// Takes a channel's number.
    pub fn channel(&mut self) -> Result<u8, LineError>
        ensures read { IfOk result (λ n. (self.old ≡ decimal n ∷ self.new) × (n ≤ 63)) }
        ensures only { (n : ℕ) (rest : List (List ℕ)) → n ≤ 63 → self.old ≡ decimal n ∷ rest → AnswersField result n }
    {
        match self.next() {
            Some(word) => self.channel_of(word),
            None => Err(self.fault(Expected::Channel)),
        }
    }

    /// Takes a key's identifier.
    pub fn key(&mut self) -> Result<KeyId, LineError>
        ensures read { IfOk result (λ n. (self.old ≡ decimal n ∷ self.new) × IsTrue (is_key n)) }
        ensures only { (n : ℕ) (rest : List (List ℕ)) → IsTrue (is_key n) → self.old ≡ decimal n ∷ rest
            → AnswersField result n }
    {
        match self.next() {
            Some(word) => self.key_of(word),
            None => Err(self.fault(Expected::Key)),
        }
    }

    /// Takes the index of an association.
    pub fn spi(&mut self) -> Result<Spi, LineError>
        ensures read { IfOk result (λ n. (self.old ≡ decimal n ∷ self.new) × IsTrue (is_spi n)) }
        ensures only { (n : ℕ) (rest : List (List ℕ)) → IsTrue (is_spi n) → self.old ≡ decimal n ∷ rest
            → AnswersField result n }
    {
        let n = self.bounded(Expected::Spi, 1, 65_534)?;
        match Spi::new(n as u16) {
            Some(spi) => Ok(spi),
            None => Err(self.fault(Expected::Spi)),
        }
    }

    /// Takes octets in hexadecimal digits, so many.
    pub fn octets(
        &mut self,
        expected: Expected,
        least: usize,
        most: usize,
    ) -> Result<Vec<u8>, LineError>
        ensures read { IfOk result (λ octets. (self.old ≡ encode_lower octets.items ∷ self.new)
            × IsBytes octets.items × (least ≤ length octets.items) × (length octets.items ≤ most)) }
        ensures only { (octets : List ℕ) (rest : List (List ℕ)) → IsBytes octets → least ≤ length octets
            → length octets ≤ most → self.old ≡ encode_lower octets ∷ rest
            → MatchResult result (λ found. found.items ≡ octets) IsNoMemory }
    {
        let Some(word) = self.next() else {
            return Err(self.fault(expected));
        };
        match octets_of(self.alloc, word)? {
            Some(octets) if octets.len() >= least && octets.len() <= most => Ok(octets),
            _ => Err(self.fault(expected)),
        }
    }

    /// Takes `N` octets in hexadecimal digits.
    pub fn array<const N: usize>(&mut self, expected: Expected) -> Result<[u8; N], LineError>
        ensures read { IfOk result (λ octets. self.old ≡ encode_lower octets ∷ self.new) }
        ensures only { (octets : List ℕ) (rest : List (List ℕ)) → IsBytes octets → length octets ≡ N
            → self.old ≡ encode_lower octets ∷ rest → AnswersField result octets }
    {
        let octets = self.octets(expected, N, N)?;
        let mut array = [0; N];
        array.copy_from_slice(&octets);
        Ok(array)
    }

    /// Takes the octets of a record: at most 2,048 in hexadecimal digits, or - for none.
    pub fn record(&mut self) -> Result<Octets, LineError>
        ensures read { IfOk result (λ octets. (self.old ≡ octets_word octets ∷ self.new) × AreRecorded octets) }
        ensures only { (octets : List ℕ) (rest : List (List ℕ)) → AreRecorded octets
            → self.old ≡ octets_word octets ∷ rest → AnswersField result octets }
    {
        let Some(word) = self.next() else {
            return Err(self.fault(Expected::Octets));
        };
        match record_of(self.alloc, word)? {
            Some(octets) => Ok(octets),
            None => Err(self.fault(Expected::Octets)),
        }
    }

    /// Says that no word is left.
    pub fn end(&mut self, expected: Expected) -> Result<(), LineError>
        ensures read { IfOk result (λ _. self.old ≡ []) }
        ensures only { self.old ≡ [] → IsOk result }
    {
        match self.next() {
            None => Ok(()),
            Some(_) => Err(self.fault(expected)),
        }
    }

    /// Takes a number within these bounds, the last word.
    pub fn last_number(
        &mut self,
        expected: Expected,
        least: u64,
        most: u64,
    ) -> Result<u64, LineError>
        ensures read { IfOk result (λ n. (self.old ≡ decimal n ∷ []) × (least ≤ n) × (n ≤ most)) }
        ensures only { (n : ℕ) → least ≤ n → n ≤ most → self.old ≡ decimal n ∷ [] → AnswersField result n }
    {
        let n = self.bounded(expected, least, most)?;
        self.end(Expected::End)?;
        Ok(n)
    }

    /// Takes a window, the last words.
    pub fn last_window(&mut self) -> Result<u64, LineError>
        ensures read { IfOk result (λ window. (self.old ≡ window_words window) × IsWindowField window) }
        ensures only { (window : ℕ) → IsWindowField window → self.old ≡ window_words window
            → AnswersField result window }
    {
        let window = self.window()?;
        self.end(Expected::End)?;
        Ok(window)
    }

    /// Takes the index of an association, the last word.
    pub fn last_spi(&mut self) -> Result<Spi, LineError>
        ensures read { IfOk result (λ n. (self.old ≡ decimal n ∷ []) × IsTrue (is_spi n)) }
        ensures only { (n : ℕ) → IsTrue (is_spi n) → self.old ≡ decimal n ∷ [] → AnswersField result n }
    {
        let spi = self.spi()?;
        self.end(Expected::End)?;
        Ok(spi)
    }

    /// Takes 16 octets in hexadecimal digits, the last word.
    pub fn last_block(&mut self) -> Result<[u8; 16], LineError>
        ensures read { IfOk result (λ octets. self.old ≡ encode_lower octets ∷ []) }
        ensures only { (octets : List ℕ) → IsBytes octets → length octets ≡ 16
            → self.old ≡ encode_lower octets ∷ [] → AnswersField result octets }
    {
        let block = self.array(Expected::Block)?;
        self.end(Expected::End)?;
        Ok(block)
    }

    /// Takes the octets of a record, the last word.
    pub fn last_record(&mut self) -> Result<Octets, LineError>
        ensures read { IfOk result (λ octets. (self.old ≡ octets_word octets ∷ []) × AreRecorded octets) }
        ensures only { (octets : List ℕ) → AreRecorded octets
            → self.old ≡ octets_word octets ∷ [] → AnswersField result octets }
    {
        let octets = self.record()?;
        self.end(Expected::End)?;
        Ok(octets)
    }
}
