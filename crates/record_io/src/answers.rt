//! The answers of `run`: written, and read from octets or a source.
ghost use Rattle.std.specs.Prelude.{◌≡◌, ◌++◌, [], ◌≤◌, IsTrue, IfOk, ◌<◌, ◌^◌, ◌↔◌, IfSome, None, Ok, Err};
ghost use Rattle.std.specs.Prelude.{MatchOption, length, slice_index};
ghost use Rattle.std.specs.List.{All};
ghost use Rattle.sdls_outside.specs.Faults.{Rose};
ghost use Rattle.record_io.specs.Answers.{IsAnswer, answer_octets, header_octets, header_of, HasWidths};
ghost use Rattle.record_io.specs.AnswerReading.{header_said, IsBehind, IsAnswerCode, IsKnownHead, StandsInFront};
ghost use Rattle.record_io.specs.AnswerReading.{UnknownInFront, is_answer_code};
ghost use Rattle.record_io.specs.NextAnswer.{IfFault, Stands, StandsBehind};
ghost use Rattle.record_io.specs.declared.answers.TheConstants.{ANSWER_HEADER};
ghost use Rattle.record_io.specs.declared.answers.AnswerError.TheVariants as errors;

use crate::code::AnswerCode;
use crate::short_octets::ShortOctets;
use byteorder::{BigEndian, ByteOrder};
use sdls_base::{NoMemory, double_word_at, number_at, word_at};
use sdls_outside::{Failed, Source, collect};
use std::alloc::{AllocError, Global};
use thiserror::Error;

/// The octets of an answer before its body.
pub const ANSWER_HEADER: usize = 24;

/// An answer, by the fields of the formats.
#[derive(Debug, Drop)]
pub struct Answer {
    /// One of [`crate::code`].
    pub code: u8,
    /// What the code says more.
    pub detail: u8,
    /// The identifier of the key that was used or that had no number left, or 0.
    pub key: u16,
    /// How many entries or epochs of the run the answer has seen.
    pub position: u64,
    /// The number that was used, or what the code says.
    pub number: u64,
    pub body: ShortOctets,
}

impl Answer {
    /// An answer without a key and a body: its code with its detail, its number and its position.
    pub fn counting(alloc: Global, code: u8, detail: u8, number: u64, position: u64) -> Answer
        ensures { result ≡ record {
          code = code;
          detail = detail;
          key = 0;
          position = position;
          number = number;
          body = [];
        } }
    {
        Answer {
            code,
            detail,
            key: 0,
            position,
            number,
            body: ShortOctets::none(alloc),
        }
    }

    /// An answer with a body, and with a number of a key, or 0 for both. It has no detail.
    pub fn numbered(code: u8, key: u16, number: u64, position: u64, body: ShortOctets) -> Answer
        ensures { result ≡ record {
          code = code;
          detail = 0;
          key = key;
          position = position;
          number = number;
          body = body;
        } }
    {
        Answer {
            code,
            detail: 0,
            key,
            position,
            number,
            body,
        }
    }
}

/// The first 24 octets of an answer, which its body follows.
#[tactic(auto, unfolding(crate::specs::Answers::answer_octets))]
pub fn answer_header(answer: &Answer) -> [u8; ANSWER_HEADER]
    ensures header { result ≡ header_octets (header_of answer.now) }
    ensures whole { result ++ answer.now.body ≡ answer_octets answer.now }
{
    let len = answer.body.as_slice().len() as u32;
    let mut header = [0; ANSWER_HEADER];
    header[0] = answer.code;
    header[1] = answer.detail;
    BigEndian::write_u16(&mut header[2..4], answer.key);
    BigEndian::write_u32(&mut header[4..8], len);
    BigEndian::write_u64(&mut header[8..16], answer.position);
    BigEndian::write_u64(&mut header[16..24], answer.number);
    header
}

/// For contracts alone: the fields of an answer have their widths.
fn has_widths(answer: &Answer)
    ensures { IsAnswer answer.now }
{
    let _code = answer.code;
    let _detail = answer.detail;
    let _key = answer.key;
    let _position = answer.position;
    let _number = answer.number;
    let _body = answer.body.as_slice();
}

/// For contracts alone: the fields of answers have their widths, which are those of their types.
pub fn answers_have_widths(answers: &[Answer])
    ensures { All IsAnswer answers.now }
{
    for answer in answers {
        has_widths(answer);
    }
}

/// The most octets of an answer's body: a dump of 256 events, 18 octets each, behind the 3 octets of a reply's header.
pub const MOST_BODY: u32 = 4611;

/// What stands next in a source of answers.
#[derive(Debug, Drop)]
pub enum NextAnswer {
    /// A whole answer, by its fields.
    Answer(Answer),
    /// Nothing.
    End,
    /// An answer that the end of the octets cuts.
    Cut,
    /// A header that says more octets than the body of an answer has.
    Long,
    SourceFault,
}

/// Takes the body of an answer.
fn take_body<S: Source>(
    alloc: Global,
    source: &mut S,
    head: AnswerHead,
) -> Result<NextAnswer, NoMemory>
    requires { head.len ≤ MOST_BODY }
    ensures stands { IsTrue S.told
        → IfOk result (StandsBehind (header_said head) (S.left source.old) (S.left source.new)) }
    ensures cause { IfOk result (IfFault (Rose (S.faults source.old) (S.faults source.new))) }
    ensures later { S.faults source.old ≤ S.faults source.new }
{
    let mut body = vec![in alloc; 0; head.len as usize]?;
    match collect(source, body.as_mut_slice()) {
        Err(Failed) => Ok(NextAnswer::SourceFault),
        Ok(count) if count < body.len() => Ok(NextAnswer::Cut),
        Ok(_) => Ok(NextAnswer::Answer(Answer {
            code: head.code,
            detail: head.detail,
            key: head.key,
            position: head.position,
            number: head.number,
            body: ShortOctets::new(body),
        })),
    }
}

/// Takes the next answer. Of octets that are no answer's it takes the header at most.
pub fn next_answer<S: Source>(alloc: Global, source: &mut S) -> Result<NextAnswer, NoMemory>
    // What is told stands next in the source, and what was taken is no more than a whole answer.
    ensures stands { IsTrue S.told → IfOk result (Stands (S.left source.old) (S.left source.new)) }
    // A fault of the source is told only if its count rose.
    ensures cause { IfOk result (IfFault (Rose (S.faults source.old) (S.faults source.new))) }
    ensures later { S.faults source.old ≤ S.faults source.new }
{
    let mut header = [0; ANSWER_HEADER];
    match collect(source, &mut header) {
        Err(Failed) => Ok(NextAnswer::SourceFault),
        Ok(0) => Ok(NextAnswer::End),
        Ok(count) if count < ANSWER_HEADER => Ok(NextAnswer::Cut),
        Ok(_) => {
            let head = answer_head(&header);
            if head.len > MOST_BODY {
                return Ok(NextAnswer::Long);
            }
            take_body(alloc, source, head)
        }
    }
}

/// Why no answer is read.
#[derive(Clone, Copy, Debug, PartialEq, Eq, Error)]
pub enum AnswerError {
    /// A header stands there whose code is that of no answer.
    #[error("unknown code")]
    Code,
    /// Out of memory.
    #[error("no memory")]
    NoMemory,
}

/// What the header of an answer says.
#[derive(Clone, Copy)]
pub struct AnswerHead {
    pub code: u8,
    pub detail: u8,
    pub key: u16,
    /// The octets of the body.
    pub len: u32,
    pub position: u64,
    pub number: u64,
}

/// If the code is that of an answer.
fn is_code(code: u8) -> bool
    ensures { result ≡ is_answer_code code }
{
    AnswerCode::of(code).is_some()
}

/// What the 24 octets before a body say, whatever their code.
pub fn answer_head(header: &[u8]) -> AnswerHead
    requires { length header.now ≡ ANSWER_HEADER }
    ensures spelled { header.now ≡ header_octets (header_said result) }
    ensures widths { HasWidths (header_said result) }
    ensures code { result.code ≡ slice_index header.now 0 }
{
    AnswerHead {
        code: header[0],
        detail: header[1],
        key: word_at(header, 2),
        len: double_word_at(header, 4),
        position: number_at(header, 8),
        number: number_at(header, 16),
    }
}

/// What a header says, or `None` if its code is that of no answer.
pub fn known_head(header: &[u8]) -> Option<AnswerHead>
    requires { length header.now ≡ ANSWER_HEADER }
    ensures { MatchOption result (UnknownInFront header.now) (IsKnownHead header.now) }
{
    if !is_code(header[0]) {
        return None;
    }
    Some(answer_head(header))
}

/// Reads the answer behind whose header these octets stand, and says how many octets it has.
fn read_body(alloc: Global, head: &AnswerHead, behind: &[u8]) -> Result<(Answer, usize), AllocError>
    requires { length behind.now < 2 ^ 63 }
    ensures { IfOk result (λ read. IsBehind (header_said head.now) behind.now read.0 read.1) }
{
    let len = behind.len().min(head.len as usize);
    let body = behind[..len].to_vec(alloc)?;
    Ok((
        Answer {
            code: head.code,
            detail: head.detail,
            key: head.key,
            position: head.position,
            number: head.number,
            body: ShortOctets::new(body),
        },
        ANSWER_HEADER + len,
    ))
}

/// Reads the answer at the front of octets, and says how many octets it has there. It takes memory for the body alone;
/// if the octets end in the body, the answer has as much of it as there is.
pub fn read_answer(alloc: Global, octets: &[u8]) -> Result<Option<(Answer, usize)>, AnswerError>
    ensures read { IfOk result (λ found. IfSome found (λ read. StandsInFront octets.now read.0 read.1)) }
    // None is read exactly where no header is whole, and a code refused exactly where a whole header has it.
    ensures none { (result ≡ Ok None) ↔ (length octets.now < ANSWER_HEADER) }
    ensures code { (result ≡ Err errors.Code)
        ↔ ((ANSWER_HEADER ≤ length octets.now) × ¬ IsAnswerCode (slice_index octets.now 0)) }
{
    if octets.len() < ANSWER_HEADER {
        return Ok(None);
    }
    if !is_code(octets[0]) {
        return Err(AnswerError::Code);
    }
    let head = answer_head(&octets[..ANSWER_HEADER]);
    match read_body(alloc, &head, &octets[ANSWER_HEADER..]) {
        Ok(read) => Ok(Some(read)),
        Err(_) => Err(AnswerError::NoMemory),
    }
}
