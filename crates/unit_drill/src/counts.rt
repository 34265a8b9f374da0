//! What is counted of answers.
ghost use Rattle.std.specs.Prelude.{◌≡◌, ◌+◌, ◌<◌, ◌^◌, ◌≤◌, length};
ghost use Rattle.unit_drill.specs.Counting.{no_counts, sum_of, count_accepted, count_code, count_fields, count_given};
ghost use Rattle.unit_drill.specs.Counting.{gives_field};

use crate::records::data_field;
use record_io::code::ACCEPTED;
use record_io::{Answer, Record};
use sdls_base::same_octets;

/// What is counted of the answers of a drill.
#[derive(Clone, Copy)]
pub struct Counts {
    /// Frames that the first unit protected.
    pub protected: u64,
    /// Frames of these that the link lost; none without a link.
    pub lost: u64,
    /// Frames that the second unit accepted, with the data field that they were made with.
    pub accepted: u64,
    /// Frames that the second unit refused for their number.
    pub rejected: u64,
}

impl Counts {
    pub fn none() -> Counts
        ensures { result ≡ no_counts }
    {
        Counts {
            protected: 0,
            lost: 0,
            accepted: 0,
            rejected: 0,
        }
    }

    pub fn plus(self, other: Counts) -> Counts
        requires protected { self.protected + other.protected < 2 ^ 64 }
        requires lost { self.lost + other.lost < 2 ^ 64 }
        requires accepted { self.accepted + other.accepted < 2 ^ 64 }
        requires rejected { self.rejected + other.rejected < 2 ^ 64 }
        ensures { result ≡ sum_of self other }
    {
        Counts {
            protected: self.protected + other.protected,
            lost: self.lost + other.lost,
            accepted: self.accepted + other.accepted,
            rejected: self.rejected + other.rejected,
        }
    }
}

/// How many answers have this code.
#[tactic(auto, using(crate::proofs::Counted::few_counted))]
pub(crate) fn count_code(answers: &[Answer], code: u8) -> usize
    ensures count { result ≡ count_code code answers.now }
    ensures few { result ≤ length answers.now }
{
    answers.iter().filter(|answer| answer.code == code).count()
}

/// Whether the frame is accepted, and its data field is that with which the frame of this number was made.
fn gives_field(answer: &Answer, number: u64) -> bool
    ensures { result ≡ gives_field number answer.now }
{
    answer.code == ACCEPTED && same_octets(answer.body.as_slice(), &data_field(number))
}

/// How many answers give the data field of this frame.
#[tactic(auto, using(crate::proofs::Counted::few_counted))]
pub(crate) fn count_fields(answers: &[Answer], number: u64) -> usize
    ensures count { result ≡ count_fields number answers.now }
    ensures few { result ≤ length answers.now }
{
    answers
        .iter()
        .filter(|answer| gives_field(answer, number))
        .count()
}

/// How many of the frames were accepted, each with its own data field.
#[tactic(auto, using(crate::proofs::Counted::few_accepted))]
pub(crate) fn count_accepted(tasks: &[Record], answers: &[Answer], ahead: u64) -> usize
    ensures count { result ≡ count_accepted ahead tasks.now answers.now }
    ensures few { result ≤ length answers.now }
{
    tasks
        .iter()
        .zip(answers.iter())
        .filter(|(task, answer)| gives_field(answer, task.index.saturating_sub(ahead)))
        .count()
}

/// How many of these frames were accepted, each with its own data field.
#[tactic(auto, using(crate::proofs::Counted::few_given))]
pub(crate) fn count_given(numbers: &[u64], answers: &[Answer]) -> usize
    ensures count { result ≡ count_given numbers.now answers.now }
    ensures few { result ≤ length answers.now }
{
    numbers
        .iter()
        .zip(answers.iter())
        .filter(|(number, answer)| gives_field(answer, **number))
        .count()
}
