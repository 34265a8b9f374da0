//! The audit, answer by answer: what each says of a number of a key, and what follows from the definitions.
ghost use Rattle.std.specs.Prelude.{◌≡◌, ℕ, ◌+◌, ◌<◌, ◌^◌, ◌++◌, List, [], ◌∷◌, Bool, true, false, Option, IfOk};
ghost use Rattle.std.specs.Prelude.{OnErr, MatchOption, length, take};
ghost use Rattle.std.specs.List.{All};
ghost use Rattle.record_io.specs.declared.answers.Answer.{Answer};
ghost use Rattle.record_io.specs.Answers.{IsAnswer, answers_octets};
ghost use Rattle.pair_audit.specs.Audit.{FeedsAcceptance, FeedsUse, IsAsBefore, KnowsAudit, HasHead, TellsOf};
ghost use Rattle.pair_audit.specs.Audit.{acceptances_in, repeat_at, uses_in, TellsRepeat};
ghost use Rattle.pair_audit.specs.declared.audit.Repeat.{Repeat};
ghost use Rattle.pair_audit.specs.Counted.{CountsAnswers, TellAlike, counted_of};
ghost use Rattle.pair_audit.specs.Recording.{AuditSays, IsMalformedAt, ReadsRuns};
ghost use Rattle.pair_audit.specs.declared.walk.AuditEnd.{AuditEnd};
ghost use Rattle.pair_audit.specs.Repeats.{AreUnlike, IsFirstRepeat, RepeatNothing};
ghost use Rattle.pair_audit.specs.Marks.{Marks};

use crate::walk::enter;
use record_io::code::{ACCEPTED, DONE, PROTECTED};
use record_io::{Answer, answers_shown_once};
use sdls_base::NoMemory;
use std::alloc::Global;
use std::collections::BTreeMap;

/// Two answers that use, or accept, one number of a key.
#[derive(Clone, Copy, Debug, PartialEq, Eq)]
pub struct Repeat {
    /// If they use it: else they accept it.
    pub pair: bool,
    pub key: u16,
    pub number: u64,
    /// The place of the earlier answer, from 0 over all that were fed.
    pub first: u64,
    /// The place of the later one.
    pub second: u64,
}

/// What an audit knows of the answers that it was fed: where each number of a key was used and accepted first, and how
/// many answers use and accept one.
#[derive(Drop)]
pub struct Audit {
    uses: BTreeMap<(u16, u64), u64>,
    acceptances: BTreeMap<(u16, u64), u64>,
    use_count: u64,
    acceptance_count: u64,
    fed: u64,
}

/// What is told of an answer at this place, by the place at which its number was seen before.
fn repeat_of(pair: bool, key: u16, number: u64, second: u64, before: Option<u64>) -> Option<Repeat>
    ensures { result ≡ repeat_at pair key number second before }
{
    match before {
        None => None,
        Some(first) => Some(Repeat {
            pair,
            key,
            number,
            first,
            second,
        }),
    }
}

impl Audit {
    /// An audit that was fed no answer. Takes no memory.
    pub fn new(alloc: Global) -> Audit
        ensures { KnowsAudit [] result }
    {
        Audit {
            uses: BTreeMap::new(alloc),
            acceptances: BTreeMap::new(alloc),
            use_count: 0,
            acceptance_count: 0,
            fed: 0,
        }
    }

    /// Takes an answer that uses the number of the key.
    fn feed_use(&mut self, key: u16, number: u64) -> Result<Option<Repeat>, NoMemory>
        requires { (self.old.fed + 1 < 2 ^ 64) × (self.old.use_count + 1 < 2 ^ 64) }
        ensures fed { IfOk result (FeedsUse self.old self.new key number) }
        ensures kept { OnErr result (IsAsBefore self.old self.new) }
    {
        let second = self.fed;
        let before = enter(&mut self.uses, key, number, second)?;
        self.use_count += 1;
        self.fed += 1;
        Ok(repeat_of(true, key, number, second, before))
    }

    /// Takes an answer that accepts the number of the key.
    fn feed_acceptance(&mut self, key: u16, number: u64) -> Result<Option<Repeat>, NoMemory>
        requires { (self.old.fed + 1 < 2 ^ 64) × (self.old.acceptance_count + 1 < 2 ^ 64) }
        ensures fed { IfOk result (FeedsAcceptance self.old self.new key number) }
        ensures kept { OnErr result (IsAsBefore self.old self.new) }
    {
        let second = self.fed;
        let before = enter(&mut self.acceptances, key, number, second)?;
        self.acceptance_count += 1;
        self.fed += 1;
        Ok(repeat_of(false, key, number, second, before))
    }

    /// Takes an answer by its code and by the number of the key, and says which earlier one it repeats, if any: the
    /// first of them. Of its body an audit needs nothing.
    pub fn feed_header(
        &mut self,
        code: u8,
        key: u16,
        number: u64,
    ) -> Result<Option<Repeat>, NoMemory>
        requires { (fed : List Answer) × KnowsAudit fed self.old × (length fed + 1 < 2 ^ 64) }
        ensures knows { IfOk result (λ _. (fed : List Answer) (answer : Answer) → HasHead code key number answer
            → KnowsAudit fed self.old → KnowsAudit (fed ++ answer ∷ []) self.new) }
        ensures told { IfOk result (λ told. (fed : List Answer) (answer : Answer) → HasHead code key number answer
            → KnowsAudit fed self.old → TellsOf fed answer told) }
        ensures kept { OnErr result (IsAsBefore self.old self.new) }
        ensures knows_still { OnErr result ((fed : List Answer) → KnowsAudit fed self.old → KnowsAudit fed self.new) }
    {
        match mark_of(code, key) {
            Mark::Uses => self.feed_use(key, number),
            Mark::Accepts => self.feed_acceptance(key, number),
            Mark::Neither => {
                self.fed += 1;
                Ok(None)
            }
        }
    }

    /// Takes the next answer, and says which earlier one it repeats, if any: the first of them. An audit knows the
    /// answers that it was fed, which are to be fewer than 2^64 with this one.
    pub fn feed(&mut self, answer: &Answer) -> Result<Option<Repeat>, NoMemory>
        requires { (fed : List Answer) × KnowsAudit fed self.old × (length fed + 1 < 2 ^ 64) }
        ensures knows { IfOk result (λ _. (fed : List Answer) → KnowsAudit fed self.old
            → KnowsAudit (fed ++ answer.now ∷ []) self.new) }
        ensures told { IfOk result (λ told. (fed : List Answer) → KnowsAudit fed self.old
            → TellsOf fed answer.now told) }
        // Without memory the audit is as before, and knows what it knew.
        ensures kept { OnErr result (IsAsBefore self.old self.new) }
        ensures knows_still { OnErr result ((fed : List Answer) → KnowsAudit fed self.old → KnowsAudit fed self.new) }
    {
        self.feed_header(answer.code, answer.key, answer.number)
    }

    /// How many answers use a number of a key, and how many accept one.
    pub fn counts(&self) -> (u64, u64)
        ensures { (fed : List Answer) → KnowsAudit fed self.now → result ≡ (uses_in fed, acceptances_in fed) }
    {
        (self.use_count, self.acceptance_count)
    }
}

/// Law: answers that repeat nothing, with one more of which no repeat is told, repeat nothing.
pub fn none_told_repeats_nothing()
    ensures { (fed : List Answer) (answer : Answer) → RepeatNothing fed → All (λ earlier. AreUnlike earlier answer) fed
        → RepeatNothing (fed ++ answer ∷ []) }
{}

/// Law: the first repeat that is told of answers, one after the other, is their first repeat.
pub fn first_told_is_first()
    ensures { (fed : List Answer) (answer : Answer) (later : List Answer) (repeat : Repeat) → RepeatNothing fed
        → TellsRepeat fed answer repeat → IsFirstRepeat (fed ++ answer ∷ later) repeat.first repeat.second }
{}

/// Law: a front of the octets of answers counts those whose header is whole, with their codes, keys and numbers, and no
/// others.
pub fn fronts_count()
    ensures { (answers : List Answer) → All IsAnswer answers → (count : ℕ) (counted : List Answer)
        → CountsAnswers (take count (answers_octets answers)) counted
        → TellAlike counted (counted_of count answers) }
{
    answers_shown_once();
}

/// Law: each front of the octets of answers counts some.
pub fn fronts_show()
    ensures { (answers : List Answer) → All IsAnswer answers → (count : ℕ)
        → (counted : List Answer) × CountsAnswers (take count (answers_octets answers)) counted }
{}

/// Law: a recording in order is read one way, and is malformed nowhere.
pub fn recording_reads_once()
    ensures one_way { (input : List ℕ) (xs ys : List (List ℕ)) (one other : List Answer)
        → ReadsRuns input xs one [] → ReadsRuns input ys other [] → (xs ≡ ys) × (one ≡ other) }
    ensures in_order { (input : List ℕ) (runs : List (List ℕ)) (answers : List Answer) (offset : ℕ)
        → ReadsRuns input runs answers [] → ¬ IsMalformedAt input offset }
{
    answers_shown_once();
}

/// Law: an audit says one thing of a recording, so what `audit_recording` returns comes exactly where it is so.
pub fn audit_says_one()
    ensures { (input : List ℕ) (one other : AuditEnd) → AuditSays input one → AuditSays input other → one ≡ other }
{
    answers_shown_once();
}

// What it does with the number.
#[derive(Clone, Copy, Debug, PartialEq, Eq)]
pub(crate) enum Mark {
    Uses,
    Accepts,
    Neither,
}

/// What an answer with this code and this key does with its number.
pub(crate) fn mark_of(code: u8, key: u16) -> Mark
    ensures { Marks code key result }
{
    match code {
        PROTECTED => Mark::Uses,
        ACCEPTED => Mark::Accepts,
        DONE if key != 0 => Mark::Uses,
        _ => Mark::Neither,
    }
}
