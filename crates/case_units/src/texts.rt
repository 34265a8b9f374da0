//! What answers look like, what a message needs, and what was seen.
ghost use Rattle.std.specs.Prelude.{◌≡◌, ◌↔◌, true};
ghost use Rattle.ep_core.specs.Seen.{MeetsNeed, IsNumberSeen, IsWord};

use case_lines::{Digits, Page, sa_state_name};
use ep_core::{Need, Reply};
use frame_checks::OpenReply;
use frame_shield::ShieldFault;
use sdls_base::{KeyId, Seen};
use unit_state::State;

/// Writes why a frame is not protected.
pub fn write_shield_fault(fault: ShieldFault, page: &mut Page) {
    match fault {
        ShieldFault::Layout(check) => write!(page, "layout {check}"),
        ShieldFault::Channel => page.push_str("channel"),
        ShieldFault::State => page.push_str("state"),
    }
}

/// Writes the reply to a frame, with the data field in the frame as it was left.
pub fn write_open_reply(reply: OpenReply, frame: &[u8], page: &mut Page) {
    match reply {
        OpenReply::Accepted {
            spi,
            key,
            number,
            from,
            to,
        } => {
            let (spi, key) = (spi.get(), key.get());
            let field = Digits(frame.get(from..to).unwrap_or(&[]));
            write!(page, "accepted {spi} {key} {number} {field}");
        }
        OpenReply::Clear => page.push_str("clear"),
        OpenReply::Layout(check) => write!(page, "layout {check}"),
        OpenReply::Channel => page.push_str("channel"),
        OpenReply::Spi => page.push_str("spi"),
        OpenReply::Direction => page.push_str("direction"),
        OpenReply::State(state) => write!(page, "state {}", sa_state_name(state)),
        OpenReply::Coverage => page.push_str("coverage"),
        OpenReply::Mac => page.push_str("mac"),
        OpenReply::Number {
            key,
            number,
            high,
            width,
        } => {
            let key = key.get();
            write!(page, "number {key} {number} high {high} width {width}");
        }
    }
}

/// Writes the reply to a command: key, number and message, or the detail in hexadecimal and the value.
pub fn write_reply(reply: &Reply, page: &mut Page) {
    match reply {
        Reply::Done { key, number, pdu } => {
            let key = key.map_or(0, |key| key.get());
            let message = Digits(pdu.as_slice());
            write!(page, "done {key} {number} {message}");
        }
        Reply::Refused { code, value } => write!(page, "refused {code:02x} {value}"),
    }
}

/// A number that was drawn is below the mark of its key, or past the end of it.
fn is_drawn(state: &State, key: KeyId, seen: Seen) -> bool
    ensures { (result ≡ true) ↔ IsNumberSeen state.now key seen }
{
    match seen {
        Seen::Number(number) => match state.keys.find(key) {
            Some((_, held)) => number < held.mark,
            None => false,
        },
        Seen::Exhausted(number) => key.end() <= number,
        Seen::Nothing | Seen::Word(_) => false,
    }
}

/// A word that was seen is at least 1.
fn is_word(seen: Seen) -> bool
    ensures { (result ≡ true) ↔ IsWord seen }
{
    match seen {
        Seen::Word(word) => 1 <= word,
        Seen::Nothing | Seen::Number(_) | Seen::Exhausted(_) => false,
    }
}

/// Whether what was seen is what was needed.
pub fn fits(state: &State, need: &Need, seen: Seen) -> bool
    ensures { (result ≡ true) ↔ MeetsNeed state.now need.now seen }
{
    match need {
        Need::Nothing => matches!(seen, Seen::Nothing),
        Need::Look(_) | Need::Raise(_, _) => is_word(seen),
        Need::Number(key) => is_drawn(state, *key, seen),
    }
}
