//! The words for the codes of answers, and what their details name.
ghost use Rattle.std.specs.Prelude.{◌≡◌};
ghost use Rattle.std.specs.Option.{option_copied};
ghost use Rattle.answer_text.specs.Code.{code_word, layout_details, state_details, refusal_details, end_numbers};
ghost use Rattle.answer_text.specs.Code.{word_of};

use record_io::AnswerCode;
use record_io::status::{MALFORMED, NO_STATE, SITE_FAULT, SOURCE_FAULT};
use sdls_base::SaState;
use text_words::sa_state_word;

pub(crate) fn code_word(code: AnswerCode) -> &'static [u8]
    ensures { result.now ≡ code_word code }
{
    match code {
        AnswerCode::Protected => b"protected",
        AnswerCode::Accepted => b"accepted",
        AnswerCode::Clear => b"clear",
        AnswerCode::Done => b"done",
        AnswerCode::Refused => b"refused",
        AnswerCode::Monitored => b"monitored",
        AnswerCode::MonitorFault => b"monitor-fault",
        AnswerCode::Layout => b"layout",
        AnswerCode::Channel => b"channel",
        AnswerCode::Spi => b"spi",
        AnswerCode::Direction => b"direction",
        AnswerCode::State => b"state",
        AnswerCode::Coverage => b"coverage",
        AnswerCode::Mac => b"mac",
        AnswerCode::Number => b"number",
        AnswerCode::Exhausted => b"exhausted",
        AnswerCode::SiteFault => b"site-fault",
        AnswerCode::Stopped => b"stopped",
        AnswerCode::NoMemory => b"no-memory",
        AnswerCode::End => b"end",
    }
}

pub(crate) fn layout_detail(detail: u8) -> Option<&'static [u8]>
    ensures { option_copied result ≡ word_of layout_details detail }
{
    match detail {
        0 => Some(b"NoLink"),
        1 => Some(b"Short"),
        2 => Some(b"Long"),
        3 => Some(b"LengthField"),
        4 => Some(b"Version"),
        5 => Some(b"Spare"),
        6 => Some(b"SecondaryHeader"),
        7 => Some(b"Fecf"),
        _ => None,
    }
}

pub(crate) fn state_detail(detail: u8) -> Option<&'static [u8]>
    ensures { option_copied result ≡ word_of state_details detail }
{
    match detail {
        0 => Some(b"none"),
        1 => Some(sa_state_word(SaState::Unkeyed)),
        2 => Some(sa_state_word(SaState::Keyed)),
        3 => Some(sa_state_word(SaState::Operational)),
        _ => None,
    }
}

pub(crate) fn refusal_detail(detail: u8) -> Option<&'static [u8]>
    ensures { option_copied result ≡ word_of refusal_details detail }
{
    match detail {
        0x11 => Some(b"AlreadyLoaded"),
        0x12 => Some(b"DuplicateKey"),
        0x13 => Some(b"BookFull"),
        0x14 => Some(b"KeyInState"),
        0x15 => Some(b"KeyInUse"),
        0x16 => Some(b"UnknownKey"),
        0x21 => Some(b"UnknownSpi"),
        0x22 => Some(b"SpiTaken"),
        0x23 => Some(b"SaInState"),
        0x24 => Some(b"ChannelTaken"),
        0x25 => Some(b"KeyNotActive"),
        0x26 => Some(b"BelowFloor"),
        0x27 => Some(b"TableFull"),
        0x28 => Some(b"WrongSuite"),
        0x29 => Some(b"PastEnd"),
        0x2A => Some(b"UnknownChannel"),
        0x2B => Some(b"KeyTaken"),
        0x31 => Some(b"BadTag"),
        0x32 => Some(b"BadItems"),
        0x33 => Some(b"Exhausted"),
        0x34 => Some(b"PduFault"),
        0x35 => Some(b"NotMaster"),
        0x36 => Some(b"NotSession"),
        _ => None,
    }
}

/// What the number of End is, by its status.
pub(crate) fn end_number(status: u8) -> Option<&'static [u8]>
    ensures { option_copied result ≡ word_of end_numbers status }
{
    match status {
        MALFORMED | NO_STATE => Some(b"offset"),
        SOURCE_FAULT | SITE_FAULT => Some(b"faults"),
        _ => None,
    }
}
