//! The line of an answer, the lines of the answers of a source, and what holds of each line in JSON.
ghost use Rattle.std.specs.Prelude.{◌≡◌, ◌++◌, OnOk, IfErr, ◌≤◌, IsTrue, IfNone, IfSome, OnErr, ℕ, ◌<◌, List};
ghost use Rattle.std.specs.List.{All};
ghost use Rattle.hex.specs.Hex.{encode_lower};
ghost use Rattle.sdls_outside.specs.Faults.{Rose};
ghost use Rattle.record_io.specs.declared.answers.Answer.{Answer};
ghost use Rattle.record_io.specs.declared.code.AnswerCode.{AnswerCode};
ghost use Rattle.answer_text.specs.Line.{HasLine, LacksLine, end_text, front_text, HasValues};
ghost use Rattle.answer_text.specs.declared.line.TextError.TheVariants as errors;
ghost use Rattle.answer_text.specs.Listing.{AddsLine, EndsAt, IfEndFault, ListingPlace, behind};
ghost use Rattle.answer_text.specs.Code.{code_word};
ghost use Rattle.answer_text.specs.Part.{Part};
ghost use Rattle.answer_text.specs.Plain.{are_plain_parts, is_plain_text};

use crate::codes::code_word;
use crate::putting::Form;
use crate::values::put_values;
use record_io::{ANSWER_HEADER, Answer, AnswerCode, NextAnswer, code, next_answer};
use sdls_base::NoMemory;
use sdls_outside::Source;
use std::alloc::{AllocError, Global};
use std::marker::Model;
use text_words::{
    put_decimal, put_further_word, put_number_member, put_octets, put_spaced, put_word_member,
};
use thiserror::Error;

/// Writes how a line begins: the number of the record and the code, and of End the code alone.
fn put_front(text: &mut Vec<u8>, form: Form, index: u64, code: AnswerCode) -> Result<(), NoMemory>
    ensures { OnOk result (text.new.items ≡ text.old.items ++ front_text form index code) }
{
    match (form, code) {
        (Form::Words, AnswerCode::End) => put_octets(text, b"end"),
        (Form::Words, _) => {
            put_decimal(text, index)?;
            put_spaced(text, code_word(code))
        }
        (Form::Json, AnswerCode::End) => {
            put_octets(text, b"{")?;
            put_word_member(text, b"code", b"end")
        }
        (Form::Json, _) => {
            put_octets(text, b"{")?;
            put_number_member(text, b"record", index)?;
            put_further_word(text, b"code", code_word(code))
        }
    }
}

fn put_end(text: &mut Vec<u8>, form: Form) -> Result<(), NoMemory>
    ensures { OnOk result (text.new.items ≡ text.old.items ++ end_text form) }
{
    match form {
        Form::Words => put_octets(text, b"\n"),
        Form::Json => put_octets(text, b"}\n"),
    }
}

/// Writes the line of the answer to the record with this number behind what there is. After an error a front of it may
/// have been put.
pub fn put_answer(
    text: &mut Vec<u8>,
    form: Form,
    index: u64,
    answer: &Answer,
) -> Result<(), TextError>
    // What is put is the line of the answer in this form.
    ensures put { OnOk result (HasLine form index answer.now (λ line. text.new.items ≡ text.old.items ++ line)) }
    // Only an answer that is none of the formats has no line, but for lack of memory.
    ensures lacks { IfErr result (LacksLine answer.now) }
{
    let Some(code) = AnswerCode::of(answer.code) else {
        return Err(TextError::NoAnswer);
    };
    put_front(text, form, index, code)?;
    put_values(text, form, code, answer)?;
    put_end(text, form)?;
    Ok(())
}

/// Why an answer has no line.
#[derive(Clone, Copy, Debug, PartialEq, Eq, Error)]
pub enum TextError {
    /// It is none of the formats.
    #[error("no answer")]
    NoAnswer,
    /// Memory ran out.
    #[error("no memory")]
    NoMemory,
}

impl From<NoMemory> for TextError {
    ghost from_gives = { λ _ e. e ≡ errors.NoMemory };

    fn from(_wanting: NoMemory) -> TextError {
        TextError::NoMemory
    }
}

impl From<AllocError> for TextError {
    ghost from_gives = { λ _ e. e ≡ errors.NoMemory };

    fn from(_refused: AllocError) -> TextError {
        TextError::NoMemory
    }
}

/// Why no line follows.
#[derive(Clone, Copy, Debug, PartialEq, Eq)]
pub enum AnswersEnd {
    /// The octets have ended behind a whole answer.
    Whole,
    /// The end of the octets cuts the answer that begins at this offset.
    CutAt(u64),
    /// The octets from this offset on are no answer.
    NoAnswerAt(u64),
    SourceFault,
    NoMemory,
}

/// Gives the answers of a source their lines. Answers are numbered from 0 on, and again from 0 behind an End.
#[derive(Drop)]
pub struct Listing {
    index: u64,
    offset: u64,
}

impl Model for Listing {
    ghost use Rattle.answer_text.specs.Listing.{ListingPlace};

    ghost Value = { ListingPlace };

    ghost view = { λ listing. record { index = listing.index; offset = listing.offset } };
}

/// Writes the line of an answer. After an error nothing was put.
fn put_whole(
    alloc: Global,
    text: &mut Vec<u8>,
    form: Form,
    index: u64,
    answer: &Answer,
) -> Result<(), TextError>
    ensures put { OnOk result (HasLine form index answer.now (λ line. text.new.items ≡ text.old.items ++ line)) }
    ensures lacks { IfErr result (LacksLine answer.now) }
    ensures kept { OnErr result (text.new.items ≡ text.old.items) }
{
    let mut line = Vec::new(alloc);
    put_answer(&mut line, form, index, answer)?;
    text.extend_from_slice(&line)?;
    Ok(())
}

impl Listing {
    /// Before the first answer.
    pub fn new() -> Listing
        ensures { result ≡ record { index = 0; offset = 0 } }
    {
        Listing {
            index: 0,
            offset: 0,
        }
    }

    /// Counts an answer whose line was put.
    fn pass(&mut self, answer: &Answer)
        ensures { self.new ≡ behind self.old answer.now }
    {
        self.index = if answer.code == code::END {
            0
        } else {
            self.index.saturating_add(1)
        };
        let octets = ANSWER_HEADER.saturating_add(answer.body.as_slice().len());
        self.offset = self.offset.saturating_add(octets as u64);
    }

    /// Writes the line of the next answer behind what there is, or says why there is none; then nothing was put.
    #[tactic(auto, unfolding(record_io::specs::NextAnswer::Stands))]
    pub fn next_line<S: Source>(
        &mut self,
        alloc: Global,
        form: Form,
        source: &mut S,
        text: &mut Vec<u8>,
    ) -> Option<AnswersEnd>
        ensures adds { IsTrue S.told
            → IfNone result (AddsLine form self.old self.new (S.left source.old) (S.left source.new) text.old.items
            text.new.items) }
        ensures ends { IsTrue S.told
            → IfSome result (EndsAt self.old.offset (S.left source.old) (S.left source.new)) }
        ensures kept { IfSome result (λ _. text.new.items ≡ text.old.items) }
        ensures cause { IfSome result (IfEndFault (Rose (S.faults source.old) (S.faults source.new))) }
        ensures later { S.faults source.old ≤ S.faults source.new }
    {
        let answer = match next_answer(alloc, source) {
            Ok(NextAnswer::Answer(answer)) => answer,
            Ok(NextAnswer::End) => return Some(AnswersEnd::Whole),
            Ok(NextAnswer::Cut) => return Some(AnswersEnd::CutAt(self.offset)),
            Ok(NextAnswer::Long) => return Some(AnswersEnd::NoAnswerAt(self.offset)),
            Ok(NextAnswer::SourceFault) => return Some(AnswersEnd::SourceFault),
            Err(NoMemory) => return Some(AnswersEnd::NoMemory),
        };
        match put_whole(alloc, text, form, self.index, &answer) {
            Ok(()) => {
                self.pass(&answer);
                None
            }
            Err(TextError::NoAnswer) => Some(AnswersEnd::NoAnswerAt(self.offset)),
            Err(TextError::NoMemory) => Some(AnswersEnd::NoMemory),
        }
    }
}

/// Law: each string of a line in JSON, be it a name, a word or the digits of octets, has letters, digits and hyphens
/// alone, so that none of its octets needs an escape.
#[tactic(auto, using(crate::proofs::PlainStrings::plain_values, crate::proofs::PlainStrings::plain_code, crate::proofs::PlainStrings::plain_digits))]
pub fn strings_need_no_escape()
    ensures values { (code : AnswerCode) (answer : Answer) (values : List Part)
        → HasValues code answer (λ found. found ≡ values) → IsTrue (are_plain_parts values) }
    ensures code { (code : AnswerCode) → IsTrue (is_plain_text (code_word code)) }
    ensures digits { (octets : List ℕ) → All (λ octet. octet < 256) octets
        → IsTrue (is_plain_text (encode_lower octets)) }
{}
