//! The parts of a reply, and the rows of an inventory.
#![tactic(auto, unfolding(crate::specs::Part::part_text))]

ghost use Rattle.std.specs.Prelude.{◌≡◌, ◌++◌, ◌∷◌, [], OnOk};
ghost use Rattle.std.specs.List.{flat_map};
ghost use Rattle.ep_codec.specs.declared.reply_pdu.ReplyPdu.TheVariants as replies;
ghost use Rattle.answer_text.specs.Part.{parts_text, Part, further_row, part_text, row_object, row_objects, row_words};
ghost use Rattle.answer_text.specs.Reply.{reply_name, reply_values, sealed_parts, window_field_parts};

use crate::putting::{Form, put_named, put_named_octets, put_number, put_word};
use ep_codec::ReplyPdu;
use replay_window::{back_of, width_of};
use sdls_base::{Direction, KeyId, KeyState, NoMemory, SaState, Spi, Suite};
use text_words::{
    direction_word, key_state_word, procedure_word, put_further_word, put_number_member,
    put_octets, put_spaced, put_spaced_number, sa_state_word, suite_word,
};

/// Writes the procedure, and of an inventory the count of the keys.
#[tactic(auto, unfolding(crate::specs::Reply::reply_name))]
pub fn put_reply_name(text: &mut Vec<u8>, form: Form, reply: &ReplyPdu) -> Result<(), NoMemory>
    ensures { OnOk result (text.new.items ≡ text.old.items ++ parts_text form (reply_name reply.now)) }
{
    put_word(text, form, b"reply", procedure_word(reply.procedure()))?;
    match reply {
        ReplyPdu::Inventory { total, .. } => put_number(text, form, b"total", u64::from(*total)),
        _ => Ok(()),
    }
}

/// Writes what is sealed, behind its vector and before its tag.
fn put_sealed(
    text: &mut Vec<u8>,
    form: Form,
    vector: &[u8],
    sealed: &[u8],
    tag: &[u8],
) -> Result<(), NoMemory>
    ensures { OnOk result (text.new.items
        ≡ text.old.items ++ parts_text form (sealed_parts vector.now sealed.now tag.now)) }
{
    put_named_octets(text, form, b"vector", vector)?;
    put_named_octets(text, form, b"sealed", sealed)?;
    put_named_octets(text, form, b"tag", tag)
}

/// Writes the width of a window field, and its back window if it has one.
fn put_window(text: &mut Vec<u8>, form: Form, window: u64) -> Result<(), NoMemory>
    ensures { OnOk result (text.new.items ≡ text.old.items ++ parts_text form (window_field_parts window)) }
{
    put_named(text, form, b"window", width_of(window))?;
    let back = back_of(window);
    if back == 0 {
        return Ok(());
    }
    put_named(text, form, b"back", u64::from(back))
}

/// Writes what the reply of `status` carries.
#[tactic(auto, unfolding(crate::specs::Reply::reply_values))]
fn put_status(
    text: &mut Vec<u8>,
    form: Form,
    spi: Spi,
    state: SaState,
    direction: Direction,
    suite: Suite,
    key: Option<KeyId>,
    window: u64,
) -> Result<(), NoMemory>
    ensures { OnOk result (text.new.items
        ≡ text.old.items ++ parts_text form (reply_values (replies.Status spi state direction suite key window))) }
{
    let key = key.map_or(0, |key| key.get());
    put_named(text, form, b"spi", u64::from(spi.get()))?;
    put_word(text, form, b"direction", direction_word(direction))?;
    put_word(text, form, b"suite", suite_word(suite))?;
    put_word(text, form, b"state", sa_state_word(state))?;
    put_named(text, form, b"key", u64::from(key))?;
    put_window(text, form, window)
}

/// Writes what the reply carries.
#[tactic(auto, unfolding(crate::specs::Reply::reply_values))]
pub fn put_reply_values(text: &mut Vec<u8>, form: Form, reply: &ReplyPdu) -> Result<(), NoMemory>
    ensures { OnOk result (text.new.items ≡ text.old.items ++ parts_text form (reply_values reply.now)) }
{
    match reply {
        ReplyPdu::VerifyGcm {
            key,
            vector,
            sealed,
            tag,
        } => {
            put_named(text, form, b"key", u64::from(key.get()))?;
            put_sealed(text, form, vector, sealed, tag)
        }
        ReplyPdu::VerifyCmac { key, number, mac } => {
            put_named(text, form, b"key", u64::from(key.get()))?;
            put_named(text, form, b"number", u64::from(*number))?;
            put_named_octets(text, form, b"mac", mac)
        }
        ReplyPdu::Inventory { rows, .. } => put_rows(text, form, rows.as_slice()),
        ReplyPdu::Compose {
            master,
            vector,
            sealed,
            tag,
        } => {
            put_named(text, form, b"master", u64::from(master.get()))?;
            put_sealed(text, form, vector, sealed.as_slice(), tag)
        }
        ReplyPdu::ReadNumber { spi, number } => {
            put_named(text, form, b"spi", u64::from(spi.get()))?;
            put_named(text, form, b"number", *number)
        }
        ReplyPdu::Status {
            spi,
            state,
            direction,
            suite,
            key,
            window,
        } => put_status(text, form, *spi, *state, *direction, *suite, *key, *window),
        _ => Ok(()),
    }
}

/// Writes a key and its state, in words.
fn put_row(text: &mut Vec<u8>, row: &(KeyId, KeyState)) -> Result<(), NoMemory>
    ensures { OnOk result (text.new.items ≡ text.old.items ++ row_words row.now) }
{
    let (key, state) = row;
    put_spaced_number(text, u64::from(key.get()))?;
    put_spaced(text, key_state_word(*state))
}

/// Writes rows in words.
fn put_row_words(text: &mut Vec<u8>, rows: &[(KeyId, KeyState)]) -> Result<(), NoMemory>
    ensures { OnOk result (text.new.items ≡ text.old.items ++ flat_map row_words rows.now) }
{
    for row in rows {
        put_row(text, row)?;
    }
    Ok(())
}

/// Writes a key and its state as a JSON object.
fn put_object(text: &mut Vec<u8>, row: &(KeyId, KeyState)) -> Result<(), NoMemory>
    ensures { OnOk result (text.new.items ≡ text.old.items ++ row_object row.now) }
{
    let (key, state) = row;
    put_octets(text, b"{")?;
    put_number_member(text, b"key", u64::from(key.get()))?;
    put_further_word(text, b"state", key_state_word(*state))?;
    put_octets(text, b"}")
}

fn put_further_row(text: &mut Vec<u8>, row: &(KeyId, KeyState)) -> Result<(), NoMemory>
    ensures { OnOk result (text.new.items ≡ text.old.items ++ further_row row.now) }
{
    put_octets(text, b",")?;
    put_object(text, row)
}

/// Writes rows behind others.
fn put_further_rows(text: &mut Vec<u8>, rows: &[(KeyId, KeyState)]) -> Result<(), NoMemory>
    ensures { OnOk result (text.new.items ≡ text.old.items ++ flat_map further_row rows.now) }
{
    for row in rows {
        put_further_row(text, row)?;
    }
    Ok(())
}

/// Writes rows as JSON objects.
fn put_objects(text: &mut Vec<u8>, rows: &[(KeyId, KeyState)]) -> Result<(), NoMemory>
    ensures { OnOk result (text.new.items ≡ text.old.items ++ row_objects rows.now) }
{
    match rows.split_first() {
        None => Ok(()),
        Some((first, further)) => {
            put_object(text, first)?;
            put_further_rows(text, further)
        }
    }
}

/// Writes the rows of an inventory.
fn put_rows(text: &mut Vec<u8>, form: Form, rows: &[(KeyId, KeyState)]) -> Result<(), NoMemory>
    ensures { OnOk result (text.new.items ≡ text.old.items ++ part_text form (Part.rows rows.now)) }
{
    match form {
        Form::Words => put_row_words(text, rows),
        Form::Json => {
            put_octets(text, b",\"rows\":[")?;
            put_objects(text, rows)?;
            put_octets(text, b"]")
        }
    }
}
