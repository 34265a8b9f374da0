// The answers to records, by what the calls on the unit answered, placed in the order of the input.
ghost use Rattle.std.specs.Prelude.{◌≡◌, ◌<◌, ◌≤◌, ◌^◌, ◌++◌, [], length, vec_capacity, slice_range, take, unwrap_or};
ghost use Rattle.std.specs.Prelude.{ℕ, List, All, Contains, true, false};
ghost use Rattle.std.specs.Int.{w64, to_be_bytes};
ghost use Rattle.frame_checks.specs.Accepting.{field_in};
ghost use Rattle.record_io.specs.declared.code.TheConstants.{PROTECTED};
ghost use Rattle.record_io.specs.declared.answers.Answer.{Answer};
ghost use Rattle.record_io.specs.declared.item_cursor.Record.{Record};
ghost use Rattle.record_io.specs.declared.reader.TheConstants.{LANES};
ghost use Rattle.run_promise.specs.Answers as told;
ghost use Rattle.run_promise.specs.Deed.{Deed};
ghost use Rattle.law_workers.specs.Deeds.{deeds_of};
ghost use Rattle.law_calls.specs.Answering as answering;
ghost use Rattle.frame_workers.specs.Bodies.{FitsIn};
ghost use Rattle.frame_workers.specs.Lanes.{AreAmong, left_at, StopsAt};

use ep_core::Reply;
use frame_checks::OpenReply;
use frame_shield::ShieldFault;
use record_io::{Answer, Record, ShortOctets, code};
use sdls_base::KeyId;
use shared_unit::{Done, Protected};
use std::alloc::Global;
use std::vec::IntoIter;
use unit_book::BookFault;

/// Memory ran out.
pub(crate) fn answer_no_memory(alloc: Global) -> Answer
    ensures { result ≡ answering.unserved_answer }
{
    Answer::counting(alloc, code::NO_MEMORY, 0, 0, 0)
}

/// An entry was refused; none if the run has as many as it may.
fn answer_fault(alloc: Global, fault: BookFault, position: u64) -> Option<Answer>
    ensures { result ≡ answering.fault_answer fault position }
{
    match fault {
        BookFault::SiteFault(count) => Some(Answer::counting(
            alloc,
            code::SITE_FAULT,
            0,
            count,
            position,
        )),
        BookFault::Stopped(count) => Some(Answer::counting(
            alloc,
            code::STOPPED,
            0,
            count,
            position,
        )),
        BookFault::SessionFull => None,
        BookFault::NoMemory => Some(answer_no_memory(alloc)),
    }
}

/// The data field of a frame that was opened in place: the octets from `from` to before `to`.
fn field_of(mut octets: Vec<u8>, from: usize, to: usize) -> Vec<u8>
    ensures octets { result.items ≡ slice_range octets.items from to }
    ensures shorter { length result.items ≤ length octets.items }
{
    octets.truncate(to);
    if octets.len() <= from {
        octets.clear();
        return octets;
    }
    let left = octets.len() - from;
    octets.as_mut_slice().copy_within(from.., 0);
    octets.truncate(left);
    octets
}

/// The octets of the answer that names a window.
pub(crate) const WINDOW_OCTETS: usize = 16;

/// The highest number accepted and the width of the window, 8 octets each.
fn window_octets(mut room: Vec<u8>, high: u64, width: u64) -> Vec<u8>
    requires { WINDOW_OCTETS ≤ vec_capacity room }
    ensures { result.items ≡ to_be_bytes w64 high ++ to_be_bytes w64 width }
{
    room.clear();
    let Ok(()) = room.extend_from_slice(&high.to_be_bytes()) else {
        unreachable!()
    };
    let Ok(()) = room.extend_from_slice(&width.to_be_bytes()) else {
        unreachable!()
    };
    room
}

/// By the checks of a frame that was opened; `octets` are the frame's as the call left them.
fn answer_opening(alloc: Global, reply: OpenReply, position: u64, octets: Vec<u8>) -> Answer
    requires room { WINDOW_OCTETS ≤ vec_capacity octets }
    requires short { length octets.items < 2 ^ 32 }
    ensures { result ≡ answering.answer_of (told.opened_told reply (field_in reply octets.items)) position }
{
    match reply {
        OpenReply::Accepted {
            spi: _,
            key,
            number,
            from,
            to,
        } => Answer::numbered(
            code::ACCEPTED,
            key.get(),
            number,
            position,
            ShortOctets::new(field_of(octets, from, to)),
        ),
        OpenReply::Clear => Answer::counting(alloc, code::CLEAR, 0, 0, position),
        OpenReply::Layout(fault) => Answer::counting(alloc, code::LAYOUT, fault, 0, position),
        OpenReply::Channel => Answer::counting(alloc, code::CHANNEL, 0, 0, position),
        OpenReply::Spi => Answer::counting(alloc, code::SPI, 0, 0, position),
        OpenReply::Direction => Answer::counting(alloc, code::DIRECTION, 0, 0, position),
        OpenReply::State(state) => Answer::counting(alloc, code::STATE, state as u8, 0, position),
        OpenReply::Coverage => Answer::counting(alloc, code::COVERAGE, 0, 0, position),
        OpenReply::Mac => Answer::counting(alloc, code::MAC, 0, 0, position),
        OpenReply::Number {
            key,
            number,
            high,
            width,
        } => Answer::numbered(
            code::NUMBER,
            key.get(),
            number,
            position,
            ShortOctets::new(window_octets(octets, high, width)),
        ),
    }
}

/// By what `open_frame` answered; `octets` are the frame's as the call left them.
pub(crate) fn opened_answer(
    alloc: Global,
    outcome: Result<(OpenReply, u64), (BookFault, u64)>,
    octets: Vec<u8>,
) -> Option<Answer>
    requires room { WINDOW_OCTETS ≤ vec_capacity octets }
    requires short { length octets.items < 2 ^ 32 }
    ensures { result ≡ answering.opened_answer outcome octets.items }
{
    match outcome {
        Ok((reply, position)) => Some(answer_opening(alloc, reply, position, octets)),
        Err((fault, position)) => answer_fault(alloc, fault, position),
    }
}

/// The identifier of a key, or 0 for none.
fn identifier_of(key: Option<KeyId>) -> u16
    ensures { result ≡ unwrap_or key 0 }
{
    match key {
        Some(key) => key.get(),
        None => 0,
    }
}

/// By the reply to a command.
fn answer_reply(alloc: Global, reply: Reply, position: u64) -> Answer
    ensures { result ≡ answering.answer_of (told.replied_told reply) position }
{
    match reply {
        Reply::Done { key, number, pdu } => Answer::numbered(
            code::DONE,
            identifier_of(key),
            number,
            position,
            ShortOctets::new(pdu.into_octets().into_vec()),
        ),
        Reply::Refused { code, value } => Answer::counting(
            alloc,
            code::REFUSED,
            code,
            value,
            position,
        ),
    }
}

/// By what `command` answered.
pub(crate) fn commanded_answer(
    alloc: Global,
    outcome: Result<(Reply, u64), (BookFault, u64)>,
) -> Option<Answer>
    ensures { result ≡ answering.commanded_answer outcome }
{
    match outcome {
        Ok((reply, position)) => Some(answer_reply(alloc, reply, position)),
        Err((fault, position)) => answer_fault(alloc, fault, position),
    }
}

/// A frame that was protected into the front of the room.
fn answer_done(done: Done, room: &[u8], mut body: Vec<u8>) -> Answer
    requires room { done.length ≤ length room.now }
    requires short { length room.now < 2 ^ 32 }
    requires body { (body.items ≡ []) × (done.length ≤ vec_capacity body) }
    ensures { result ≡ answering.answer_of (told.numbered PROTECTED done.key done.number (take done.length room.now))
        done.epoch }
{
    let Ok(()) = body.extend_from_slice(&room[..done.length]) else {
        unreachable!()
    };
    Answer::numbered(
        code::PROTECTED,
        done.key.get(),
        done.number,
        done.epoch,
        ShortOctets::new(body),
    )
}

/// By the first check that fails of a frame that is to be protected.
fn answer_refusal(alloc: Global, fault: ShieldFault, epoch: u64) -> Answer
    ensures { result ≡ answering.answer_of (told.fault_told fault) epoch }
{
    match fault {
        ShieldFault::Layout(number) => Answer::counting(alloc, code::LAYOUT, number, 0, epoch),
        ShieldFault::Channel => Answer::counting(alloc, code::CHANNEL, 0, 0, epoch),
        ShieldFault::State => Answer::counting(alloc, code::STATE, 0, 0, epoch),
    }
}

/// By what `protect` answered; `room` is what it wrote to, and `body` an empty body with room for the frame.
pub(crate) fn protected_answer(
    alloc: Global,
    outcome: Protected,
    room: &[u8],
    body: Vec<u8>,
) -> Option<Answer>
    requires empty { body.items ≡ [] }
    requires fits { FitsIn outcome (length room.now) (vec_capacity body) }
    requires short { length room.now < 2 ^ 32 }
    ensures { result ≡ answering.protected_answer outcome room.now }
{
    match outcome {
        Protected::Done(done) => Some(answer_done(done, room, body)),
        Protected::Clear => Some(Answer::counting(alloc, code::CLEAR, 0, 0, 0)),
        Protected::Refused(fault, epoch) => Some(answer_refusal(alloc, fault, epoch)),
        Protected::Exhausted(key, number, epoch) => Some(Answer::numbered(
            code::EXHAUSTED,
            key.get(),
            number,
            epoch,
            ShortOctets::none(alloc),
        )),
        Protected::Fault(fault, position) => answer_fault(alloc, fault, position),
    }
}

/// Places the answers of the lanes in the order of the records, up to a record that has none, and says whether there is
/// one.
pub(crate) fn place_answers(
    records: &[Record],
    parts: &mut [IntoIter<Answer, Global>],
    answers: &mut Vec<Answer>,
) -> bool
    requires many { length parts.old ≡ LANES }
    requires lanes { All (λ (task : Record). task.lane < LANES) records.now }
    requires room { (answers.old.items ≡ []) × (length records.now ≤ vec_capacity answers.old) }
    ensures placed { (deeds : List Deed) (segment : ℕ)
        → ((number : ℕ) → AreAmong deeds segment number records.now (left_at number parts.old))
        → All (Contains deeds) (deeds_of segment records.now answers.new.items) }
    ensures in_turn { (lane : ℕ) → All (λ (task : Record). task.lane ≡ lane) records.now
        → (rest : List Answer) × (answers.new.items ++ rest ≡ left_at lane parts.old) }
    ensures all { result ≡ false → length answers.new.items ≡ length records.now }
    ensures stops { result ≡ true → StopsAt records.now (λ number. left_at number parts.old)
        (length answers.new.items) }
{
    for task in records {
        match parts[usize::from(task.lane)].next() {
            Some(answer) => answers.push_reserved(answer),
            None => return true,
        }
    }
    false
}
