//! The lines of `stat`: what one says, read by its words, and its JSON object. Lines in, objects out.
#![tactic(auto, unfolding(crate::specs::StateText::state_words, crate::specs::StateText::IsStateLine))]

ghost use Rattle.std.specs.Prelude.{◌≡◌, ◌++◌, OnOk, ◌^◌, ◌<◌, ◌≤◌, ℕ, List, [], ◌∷◌, codes, decimal, Some, IfSome};
ghost use Rattle.std.specs.Prelude.{IsTrue, IfNone};
ghost use Rattle.sdls_base.specs.declared.states.Direction.{Direction};
ghost use Rattle.sdls_base.specs.declared.states.KeyState.{KeyState};
ghost use Rattle.sdls_base.specs.declared.states.SaState.{SaState};
ghost use Rattle.sdls_base.specs.declared.states.Suite.{Suite};
ghost use Rattle.sdls_outside.specs.Faults.{Rose};
ghost use Rattle.text_words.specs.Words.{direction_word, key_state_word, sa_state_word, suite_word};
ghost use Rattle.text_streams.specs.StateObject.{back_member, further_number, further_word, held_members, key_members};
ghost use Rattle.text_streams.specs.StateObject.{kind_members, line_member, line_members, object_text};
ghost use Rattle.text_streams.specs.declared.state_line.StateLine.{StateLine};
ghost use Rattle.text_streams.specs.declared.state_line.StateLine.TheVariants as lines;
ghost use Rattle.text_streams.specs.StateStream.{FailsNextLine, FailsText, IsStateCause, PutsObject, PutsObjects};
ghost use Rattle.text_streams.specs.StateStream.{PutsText};
ghost use Rattle.text_streams.specs.StateText.{IsStateLine, back_words, state_text, state_words};

use crate::ends::StateEnd;
use crate::streams::{NextLine, next_line};
use sdls_base::{Direction, KeyState, NoMemory, SaState, Suite};
use sdls_outside::{Failed, Site, Source};
use std::alloc::Global;
use text_words::{
    direction_named, direction_word, key_state_named, key_state_word, number_spelled,
    put_number_member, put_octets, put_word_member, sa_state_named, sa_state_word, suite_named,
    suite_word,
};
use unit_plan::Words;

/// What a line of `stat` says.
#[derive(Clone, Copy)]
pub enum StateLine {
    /// `slots U of S`: the slots of the current bank that are used, and all of them.
    Slots {
        used: u32,
        slots: u32,
    },
    /// `key K STATE mark M floor F`: a key.
    Key {
        id: u16,
        state: KeyState,
        mark: u64,
        floor: u64,
    },
    /// `sa SPI DIRECTION SUITE STATE key K window W [back B]`: an association. Its key is 0 if it has none, and its
    /// back window 0 if it has none.
    Association {
        spi: u16,
        direction: Direction,
        suite: Suite,
        state: SaState,
        key: u16,
        window: u64,
        back: u8,
    },
}

/// Writes how the object of a line begins.
#[tactic(auto, unfolding(crate::specs::StateObject::line_member))]
fn put_line_member(text: &mut Vec<u8>, word: &[u8]) -> Result<(), NoMemory>
    ensures { OnOk result (text.new.items ≡ text.old.items ++ line_member word.now) }
{
    put_octets(text, b"{")?;
    put_word_member(text, b"line", word)
}

/// Writes a further member whose value is a number.
#[tactic(auto, unfolding(crate::specs::StateObject::further_number))]
fn put_further_number(text: &mut Vec<u8>, name: &[u8], number: u64) -> Result<(), NoMemory>
    ensures { OnOk result (text.new.items ≡ text.old.items ++ further_number name.now number) }
{
    put_octets(text, b",")?;
    put_number_member(text, name, number)
}

/// Writes a further member whose value is a string.
#[tactic(auto, unfolding(crate::specs::StateObject::further_word))]
fn put_further_word(text: &mut Vec<u8>, name: &[u8], word: &[u8]) -> Result<(), NoMemory>
    ensures { OnOk result (text.new.items ≡ text.old.items ++ further_word name.now word.now) }
{
    put_octets(text, b",")?;
    put_word_member(text, name, word)
}

/// Writes the back window, if there is one.
fn put_back(text: &mut Vec<u8>, back: u8) -> Result<(), NoMemory>
    ensures { OnOk result (text.new.items ≡ text.old.items ++ back_member back) }
{
    if back == 0 {
        return Ok(());
    }
    put_further_number(text, b"back", u64::from(back))
}

#[tactic(auto, unfolding(crate::specs::StateObject::key_members))]
fn put_key_members(
    text: &mut Vec<u8>,
    id: u16,
    state: &[u8],
    mark: u64,
    floor: u64,
) -> Result<(), NoMemory>
    ensures { OnOk result (text.new.items ≡ text.old.items ++ key_members id state.now mark floor) }
{
    put_further_number(text, b"key", u64::from(id))?;
    put_further_word(text, b"state", state)?;
    put_further_number(text, b"mark", mark)?;
    put_further_number(text, b"floor", floor)
}

#[tactic(auto, unfolding(crate::specs::StateObject::kind_members))]
fn put_kind_members(
    text: &mut Vec<u8>,
    spi: u16,
    direction: &[u8],
    suite: &[u8],
    state: &[u8],
) -> Result<(), NoMemory>
    ensures { OnOk result (text.new.items ≡ text.old.items ++ kind_members spi direction.now suite.now state.now) }
{
    put_further_number(text, b"spi", u64::from(spi))?;
    put_further_word(text, b"direction", direction)?;
    put_further_word(text, b"suite", suite)?;
    put_further_word(text, b"state", state)
}

#[tactic(auto, unfolding(crate::specs::StateObject::held_members))]
fn put_held_members(text: &mut Vec<u8>, key: u16, window: u64, back: u8) -> Result<(), NoMemory>
    ensures { OnOk result (text.new.items ≡ text.old.items ++ held_members key window back) }
{
    put_further_number(text, b"key", u64::from(key))?;
    put_further_number(text, b"window", window)?;
    put_back(text, back)
}

#[tactic(auto, unfolding(crate::specs::StateObject::line_members))]
fn put_members(text: &mut Vec<u8>, line: &StateLine) -> Result<(), NoMemory>
    ensures { OnOk result (text.new.items ≡ text.old.items ++ line_members line.now) }
{
    match *line {
        StateLine::Slots { used, slots } => {
            put_line_member(text, b"slots")?;
            put_further_number(text, b"used", u64::from(used))?;
            put_further_number(text, b"slots", u64::from(slots))
        }
        StateLine::Key {
            id,
            state,
            mark,
            floor,
        } => {
            put_line_member(text, b"key")?;
            put_key_members(text, id, key_state_word(state), mark, floor)
        }
        StateLine::Association {
            spi,
            direction,
            suite,
            state,
            key,
            window,
            back,
        } => {
            put_line_member(text, b"sa")?;
            put_kind_members(
                text,
                spi,
                direction_word(direction),
                suite_word(suite),
                sa_state_word(state),
            )?;
            put_held_members(text, key, window, back)
        }
    }
}

/// Writes the object of a line and its line feed behind what there is. After an error a front of it may have been put.
pub fn put_state_object(text: &mut Vec<u8>, line: &StateLine) -> Result<(), NoMemory>
    ensures { OnOk result (text.new.items ≡ text.old.items ++ object_text line.now) }
{
    put_members(text, line)?;
    put_octets(text, b"}\n")
}

/// The greatest values of one octet, of two and of four.
const MOST_OF_1: u64 = 255;

const MOST_OF_2: u64 = 65_535;

const MOST_OF_4: u64 = 4_294_967_295;

/// Takes the next word, and says whether it is this one.
fn takes(words: &mut Words<'_>, word: &[u8]) -> bool
    ensures taken { IsTrue result → words.old ≡ word.now ∷ words.new }
    ensures only { (rest : List (List ℕ)) → words.old ≡ word.now ∷ rest → IsTrue result }
{
    match words.next() {
        Some(next) => next == word,
        None => false,
    }
}

/// Takes a number within these bounds.
fn number(words: &mut Words<'_>, least: u64, most: u64) -> Option<u64>
    ensures read { IfSome result (λ n. (words.old ≡ decimal n ∷ words.new) × (least ≤ n) × (n ≤ most)) }
    ensures only { (n : ℕ) (rest : List (List ℕ)) → least ≤ n → n ≤ most → words.old ≡ decimal n ∷ rest
        → result ≡ Some n }
{
    let word = words.next()?;
    match number_spelled(word) {
        Some(n) if least <= n && n <= most => Some(n),
        _ => None,
    }
}

/// Takes a word, which has to be this one, and behind it a number that is at most so great.
fn named_number(words: &mut Words<'_>, name: &[u8], most: u64) -> Option<u64>
    ensures read { IfSome result (λ n. (words.old ≡ name.now ∷ decimal n ∷ words.new) × (n ≤ most)) }
    ensures only { (n : ℕ) (rest : List (List ℕ)) → n ≤ most → words.old ≡ name.now ∷ decimal n ∷ rest
        → result ≡ Some n }
{
    if !takes(words, name) {
        return None;
    }
    number(words, 0, most)
}

/// The same of the last two words.
fn last_number(words: &mut Words<'_>, name: &[u8], most: u64) -> Option<u64>
    ensures read { IfSome result (λ n. (words.old ≡ name.now ∷ decimal n ∷ []) × (n ≤ most)) }
    ensures only { (n : ℕ) → n ≤ most → words.old ≡ name.now ∷ decimal n ∷ [] → result ≡ Some n }
{
    let n = named_number(words, name, most)?;
    match words.next() {
        None => Some(n),
        Some(_) => None,
    }
}

/// What stands behind `slots`.
fn slots(words: &mut Words<'_>) -> Option<StateLine>
    ensures read { IfSome result (λ line. (codes "slots" ∷ words.old ≡ state_words line) × IsStateLine line) }
    ensures only { (used slots : ℕ) → used < 2 ^ 32 → slots < 2 ^ 32
        → words.old ≡ decimal used ∷ codes "of" ∷ decimal slots ∷ [] → result ≡ Some (lines.Slots used slots) }
{
    let used = number(words, 0, MOST_OF_4)?;
    let slots = last_number(words, b"of", MOST_OF_4)?;
    Some(StateLine::Slots {
        used: used as u32,
        slots: slots as u32,
    })
}

/// The mark of a key and its floor, the last words.
fn mark_and_floor(words: &mut Words<'_>) -> Option<(u64, u64)>
    ensures read { IfSome result (λ read.
        words.old ≡ codes "mark" ∷ decimal read.0 ∷ codes "floor" ∷ decimal read.1 ∷ []) }
    ensures only { (mark floor : ℕ) → mark < 2 ^ 64 → floor < 2 ^ 64
        → words.old ≡ codes "mark" ∷ decimal mark ∷ codes "floor" ∷ decimal floor ∷ []
        → result ≡ Some (mark, floor) }
{
    let mark = named_number(words, b"mark", u64::MAX)?;
    let floor = last_number(words, b"floor", u64::MAX)?;
    Some((mark, floor))
}

/// The state of a key, its mark and its floor, the last words.
fn key_values(words: &mut Words<'_>) -> Option<(KeyState, u64, u64)>
    ensures read { IfSome result (λ read. words.old
        ≡ key_state_word read.0 ∷ codes "mark" ∷ decimal read.1 ∷ codes "floor" ∷ decimal read.2 ∷ []) }
    ensures only { (state : KeyState) (mark floor : ℕ) → mark < 2 ^ 64 → floor < 2 ^ 64
        → words.old ≡ key_state_word state ∷ codes "mark" ∷ decimal mark ∷ codes "floor" ∷ decimal floor ∷ []
        → result ≡ Some (state, mark, floor) }
{
    let state = key_state_named(words.next()?)?;
    let (mark, floor) = mark_and_floor(words)?;
    Some((state, mark, floor))
}

/// What stands behind `key`.
fn key(words: &mut Words<'_>) -> Option<StateLine>
    ensures read { IfSome result (λ line. (codes "key" ∷ words.old ≡ state_words line) × IsStateLine line) }
    ensures only { (id : ℕ) (state : KeyState) (mark floor : ℕ) → 0 < id → id < 2 ^ 16 → mark < 2 ^ 64
        → floor < 2 ^ 64 → words.old ≡ decimal id ∷ key_state_word state
        ∷ codes "mark" ∷ decimal mark ∷ codes "floor" ∷ decimal floor ∷ []
        → result ≡ Some (lines.Key id state mark floor) }
{
    let id = number(words, 1, MOST_OF_2)?;
    let (state, mark, floor) = key_values(words)?;
    Some(StateLine::Key {
        id: id as u16,
        state,
        mark,
        floor,
    })
}

/// Takes the direction, the suite and the state of an association.
fn kind(words: &mut Words<'_>) -> Option<(Direction, Suite, SaState)>
    ensures read { IfSome result (λ read.
        words.old ≡ direction_word read.0 ∷ suite_word read.1 ∷ sa_state_word read.2 ∷ words.new) }
    ensures only { (direction : Direction) (suite : Suite) (state : SaState) (rest : List (List ℕ))
        → words.old ≡ direction_word direction ∷ suite_word suite ∷ sa_state_word state ∷ rest
        → result ≡ Some (direction, suite, state) }
{
    let direction = direction_named(words.next()?)?;
    let suite = suite_named(words.next()?)?;
    let state = sa_state_named(words.next()?)?;
    Some((direction, suite, state))
}

/// The back window, 0 if there is none, the last words.
fn back(words: &mut Words<'_>) -> Option<u8>
    ensures read { IfSome result (λ back. words.old ≡ back_words back) }
    ensures only { (back : ℕ) → back < 2 ^ 8 → words.old ≡ back_words back → result ≡ Some back }
{
    match words.next() {
        None => Some(0),
        Some(word) if word == b"back".as_slice() => {
            let back = number(words, 1, MOST_OF_1)?;
            match words.next() {
                None => Some(back as u8),
                Some(_) => None,
            }
        }
        Some(_) => None,
    }
}

/// The key of an association, 0 if it has none, the width of its window, and its back window, the last words.
fn held(words: &mut Words<'_>) -> Option<(u16, u64, u8)>
    ensures read { IfSome result (λ read.
        words.old ≡ codes "key" ∷ decimal read.0 ∷ codes "window" ∷ decimal read.1 ∷ back_words read.2) }
    ensures only { (key window back : ℕ) → key < 2 ^ 16 → window < 2 ^ 64 → back < 2 ^ 8
        → words.old ≡ codes "key" ∷ decimal key ∷ codes "window" ∷ decimal window ∷ back_words back
        → result ≡ Some (key, window, back) }
{
    let key = named_number(words, b"key", MOST_OF_2)?;
    let window = named_number(words, b"window", u64::MAX)?;
    let back = back(words)?;
    Some((key as u16, window, back))
}

/// What stands behind `sa`.
fn association(words: &mut Words<'_>) -> Option<StateLine>
    ensures read { IfSome result (λ line. (codes "sa" ∷ words.old ≡ state_words line) × IsStateLine line) }
    ensures only { (spi : ℕ) (direction : Direction) (suite : Suite) (state : SaState) (key window back : ℕ)
        → IsStateLine (lines.Association spi direction suite state key window back)
        → words.old ≡ decimal spi ∷ direction_word direction ∷ suite_word suite ∷ sa_state_word state
        ∷ codes "key" ∷ decimal key ∷ codes "window" ∷ decimal window ∷ back_words back
        → result ≡ Some (lines.Association spi direction suite state key window back) }
{
    let spi = number(words, 1, MOST_OF_2)?;
    let (direction, suite, state) = kind(words)?;
    let (key, window, back) = held(words)?;
    Some(StateLine::Association {
        spi: spi as u16,
        direction,
        suite,
        state,
        key,
        window,
        back,
    })
}

/// The line that these words are.
fn line_of(words: &mut Words<'_>) -> Option<StateLine>
    ensures read { IfSome result (λ line. (words.old ≡ state_words line) × IsStateLine line) }
    ensures slots { (used slots : ℕ) → IsStateLine (lines.Slots used slots)
        → words.old ≡ state_words (lines.Slots used slots) → result ≡ Some (lines.Slots used slots) }
    ensures key { (id : ℕ) (state : KeyState) (mark floor : ℕ) → IsStateLine (lines.Key id state mark floor)
        → words.old ≡ state_words (lines.Key id state mark floor) → result ≡ Some (lines.Key id state mark floor) }
    ensures association { (spi : ℕ) (direction : Direction) (suite : Suite) (state : SaState) (key window back : ℕ)
        → IsStateLine (lines.Association spi direction suite state key window back)
        → words.old ≡ state_words (lines.Association spi direction suite state key window back)
        → result ≡ Some (lines.Association spi direction suite state key window back) }
{
    match words.next() {
        Some(word) if word == b"slots".as_slice() => slots(words),
        Some(word) if word == b"key".as_slice() => key(words),
        Some(word) if word == b"sa".as_slice() => association(words),
        _ => None,
    }
}

/// What a line says, without its line feed, if `stat` prints it so.
pub fn read_state_line(text: &[u8]) -> Option<StateLine>
    // What is read has exactly this text, and its values have their types.
    ensures read { IfSome result (λ line. IsStateLine line × (text.now ++ codes "\n" ≡ state_text line)) }
    // Each line that has this text is read, so it is one at most.
    ensures only { (line : StateLine) → IsStateLine line → text.now ++ codes "\n" ≡ state_text line
        → result ≡ Some line }
{
    line_of(&mut Words::of(text))
}

/// Writes the object of a line, which has this number, or says why not.
fn put_object<O: Site>(alloc: Global, sink: &mut O, number: u64, text: &[u8]) -> Option<StateEnd>
    ensures puts { IsTrue O.told
        → IfNone result (PutsText text.now (O.trace sink.old).now.sunk (O.trace sink.new).now.sunk) }
    ensures fails { IsTrue O.told → IfSome result (FailsText number text.now (O.trace sink.old).now.sunk
        (O.trace sink.new).now.sunk) }
    ensures fault { IfSome result (IsStateCause ⊥ (Rose (O.faults sink.old) (O.faults sink.new))) }
    ensures later { O.faults sink.old ≤ O.faults sink.new }
{
    let Some(line) = read_state_line(text) else {
        return Some(StateEnd::NoLine(number));
    };
    let mut object = Vec::new(alloc);
    if let Err(NoMemory) = put_state_object(&mut object, &line) {
        return Some(StateEnd::NoMemory);
    }
    match sink.put(object.as_slice()) {
        Ok(()) => None,
        Err(Failed) => Some(StateEnd::OutputFault),
    }
}

/// Takes the next line, which has this number, and writes its object, or says why no object follows.
fn put_next_object<S: Source, O: Site>(
    alloc: Global,
    source: &mut S,
    sink: &mut O,
    number: u64,
) -> Option<StateEnd>
    ensures puts { IsTrue S.told → IsTrue O.told → IfNone result (PutsObject (S.left source.old) (S.left source.new)
        (O.trace sink.old).now.sunk (O.trace sink.new).now.sunk) }
    ensures fails { IsTrue S.told → IsTrue O.told → IfSome result (FailsNextLine number (S.left source.old)
        (O.trace sink.old).now.sunk (O.trace sink.new).now.sunk) }
    ensures fault { IfSome result (IsStateCause (Rose (S.faults source.old) (S.faults source.new))
        (Rose (O.faults sink.old) (O.faults sink.new))) }
    ensures later { S.faults source.old ≤ S.faults source.new }
    ensures later_sink { O.faults sink.old ≤ O.faults sink.new }
{
    match next_line(alloc, source) {
        Ok(NextLine::Line(text)) => put_object(alloc, sink, number, text.as_slice()),
        Ok(NextLine::Last(_)) => Some(StateEnd::NoLine(number)),
        Ok(NextLine::End) => Some(StateEnd::Done),
        Ok(NextLine::Long) => Some(StateEnd::LongLine(number)),
        Ok(NextLine::SourceFault) => Some(StateEnd::SourceFault),
        Err(_) => Some(StateEnd::NoMemory),
    }
}

/// Writes the JSON object of each line of the source before it takes the next one, up to the end or the first line that
/// `stat` does not print; nothing is put of that line or of a later one.
pub fn put_state_objects<S: Source, O: Site>(
    alloc: Global,
    source: &mut S,
    sink: &mut O,
) -> StateEnd
    ensures put { IsTrue S.told → IsTrue O.told
        → PutsObjects (S.left source.old) (O.trace sink.old).now.sunk (O.trace sink.new).now.sunk result }
    ensures fault { IsStateCause (Rose (S.faults source.old) (S.faults source.new))
        (Rose (O.faults sink.old) (O.faults sink.new)) result }
{
    'lines: for number in 1..u64::MAX {
        if let Some(end) = put_next_object(alloc, source, sink, number) {
            return end;
        }
    }
    StateEnd::Done
}
