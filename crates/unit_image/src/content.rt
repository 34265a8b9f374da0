//! Contents of states, written and read.

//! States made of rows.
ghost use Rattle.std.specs.Prelude.{◌≡◌, ◌↔◌, ◌+◌, ◌*◌, ◌≤◌, IsTrue, length, IfOk, IfErr, ◌++◌, take, All, ℕ, List};
ghost use Rattle.std.specs.Prelude.{◌∷◌};
ghost use Rattle.std.specs.Int.{w64, to_be_bytes};
ghost use Rattle.sdls_base.specs.Version.{content_length_of, most_keys_of, most_associations_of};
ghost use Rattle.sdls_base.specs.declared.version.Version.TheVariants.{One, Two};
ghost use Rattle.sdls_base.specs.declared.version.TheConstants.{CONTENT_LENGTH_ONE, CONTENT_LENGTH_TWO};
ghost use Rattle.sdls_base.specs.declared.version.Version.{Version};
ghost use Rattle.key_book.specs.KeyBook.{IsKeyBook};
ghost use Rattle.key_book.specs.declared.key_row.KeyRow.{KeyRow};
ghost use Rattle.sa_book.specs.SaBook.{IsSaBook};
ghost use Rattle.sa_book.specs.declared.sa_book.SaRow.{SaRow};
ghost use Rattle.unit_state.specs.declared.state.State.{State};
ghost use Rattle.unit_state.specs.State.{HasKey, KeepsRules, MayHold};
ghost use Rattle.unit_state.specs.Restart.{restarted};
ghost use Rattle.book_record.specs.Padded.{padded};
ghost use Rattle.book_record.specs.KeyParts.{key_row_octets};
ghost use Rattle.book_record.specs.SaParts.{sa_parts, sa_row_octets};
ghost use Rattle.unit_image.specs.Rows.{HasRowsCause, MakesOf, state_of};
ghost use Rattle.unit_image.specs.Content.{associations_at, key_rows, sa_rows, counts_of, key_room_of, sa_room_of};
ghost use Rattle.unit_image.specs.Content.{content_of, replaced};
ghost use Rattle.unit_image.specs.ContentReading.{AreZero, key_count, sa_count, HasRoom, keys_in, associations_in};
ghost use Rattle.unit_image.specs.ContentReading.{IsContent, IsTypedKey, IsTypedSa, FitsVersion, HasRows, counts_end_of};

use crate::rows::{
    RowsFault, are_key_rows, may_follow_associations, put_key_rows, put_sa_rows, put_zeros,
    read_keys, sa_rows,
};
use book_record::{KEY_ROW_LENGTH, SA_ROW_LENGTH};
use key_book::{KeyBook, KeyRow};
use sa_book::{SaBook, SaRow};
use sdls_base::{ChannelList, KeyState, MOST_KEYS, NoMemory, Version, are_zeros, put};
use std::alloc::Global;
use unit_state::State;

fn key_count(content: &[u8]) -> usize
    requires { 2 ≤ length content.now }
    ensures { result ≡ key_count content.now }
{
    usize::from(u16::from_be_bytes([content[0], content[1]]))
}

fn sa_count(version: Version, content: &[u8]) -> usize
    requires { 4 ≤ length content.now }
    ensures { result ≡ sa_count version content.now }
{
    match version {
        Version::One => usize::from(content[2]),
        Version::Two => usize::from(u16::from_be_bytes([content[2], content[3]])),
    }
}

fn is_zero(content: &[u8], from: usize, to: usize) -> bool
    requires order { from ≤ to }
    requires inside { to ≤ length content.now }
    ensures { IsTrue result ↔ AreZero from to content.now }
{
    are_zeros(&content[from..to])
}

/// Whether the counts are in their bounds, and every octet that no row uses is zero.
fn has_room(version: Version, content: &[u8]) -> bool
    requires { length content.now ≡ content_length_of version }
    ensures { IsTrue result ↔ HasRoom version content.now }
{
    let keys = key_count(content);
    if keys > version.most_keys() {
        return false;
    }
    let associations = sa_count(version, content);
    if associations > version.most_associations() {
        return false;
    }
    if !is_zero(content, counts_end(version), KEYS_AT) {
        return false;
    }
    let associations_at = associations_at(version);
    if !is_zero(content, KEYS_AT + KEY_ROW_LENGTH * keys, associations_at) {
        return false;
    }
    is_zero(
        content,
        associations_at + SA_ROW_LENGTH * associations,
        version.content_length(),
    )
}

fn keys_in(content: &[u8]) -> &[u8]
    requires count { 2 ≤ length content.now }
    requires inside { KEYS_AT + KEY_ROW_LENGTH * key_count content.now ≤ length content.now }
    ensures octets { result.now ≡ keys_in content.now }
    ensures rows { length result.now ≡ KEY_ROW_LENGTH * key_count content.now }
{
    let count = key_count(content);
    &content[KEYS_AT..KEYS_AT + KEY_ROW_LENGTH * count]
}

fn associations_in(version: Version, content: &[u8]) -> &[u8]
    requires count { 4 ≤ length content.now }
    requires inside { associations_at version + SA_ROW_LENGTH * sa_count version content.now ≤ length content.now }
    ensures octets { result.now ≡ associations_in version content.now }
    ensures rows { length result.now ≡ SA_ROW_LENGTH * sa_count version content.now }
{
    let count = sa_count(version, content);
    let at = associations_at(version);
    &content[at..at + SA_ROW_LENGTH * count]
}

/// Reads a content of a version: the state whose content it is, with the channels and the device field of a plan, as a
/// restart leaves it. `Unfit` comes only if it is the content of no such state. Takes memory for both books.
pub fn read_content(
    alloc: Global,
    version: Version,
    content: &[u8],
    channels: ChannelList,
    device: [u8; 4],
) -> Result<State, RowsFault>
    requires { length content.now ≡ content_length_of version }
    // What is read has this content, so that writing it gives the octets again.
    ensures found { IfOk result (λ state. IsContent version state content.now
        × (state.channels ≡ channels) × (state.device ≡ device)) }
    // A state that has this content is read, unless memory runs out.
    ensures fault { IfErr result (λ fault. HasRowsCause fault ((state : State) → state.channels ≡ channels
        → state.device ≡ device → ¬ IsContent version state content.now)) }
{
    if !has_room(version, content) {
        return Err(RowsFault::Unfit);
    }
    let keys = read_keys(alloc, keys_in(content))?;
    let associations = sa_rows(alloc, &keys, associations_in(version, content))?;
    state_of_rows(alloc, keys, associations, channels, device)
}

/// Whether a content of the version has room for the rows of the state.
pub fn fits(version: Version, state: &State) -> bool
    ensures { IsTrue result ↔ FitsVersion version state.now }
{
    state.keys.rows().len() <= version.most_keys()
        && state.associations.rows().len() <= version.most_associations()
}

/// Writes how many rows there are of each kind, and returns the place after the counts.
fn put_numbers(version: Version, out: &mut [u8], keys: usize, associations: usize) -> usize
    requires room { 4 ≤ length out.old }
    requires keys { keys ≤ most_keys_of version }
    requires associations { associations ≤ most_associations_of version }
    ensures place { result ≡ length (counts_of version keys associations) }
    ensures written { take result out.new ≡ counts_of version keys associations }
{
    let end = put(out, 0, &(keys as u16).to_be_bytes());
    match version {
        Version::One => put(out, end, &[associations as u8]),
        Version::Two => put(out, end, &(associations as u16).to_be_bytes()),
    }
}

/// Writes the counts of rows, and zeros up to the rows of keys.
fn put_counts(version: Version, out: &mut [u8], state: &State) -> usize
    requires room { KEYS_AT ≤ length out.old }
    requires fits { FitsVersion version state.now }
    ensures place { result ≡ KEYS_AT }
    ensures written { take result out.new
        ≡ padded KEYS_AT (counts_of version (length state.now.keys) (length state.now.associations)) }
{
    let keys = state.keys.rows().len();
    let associations = state.associations.rows().len();
    let end = put_numbers(version, out, keys, associations);
    put_zeros(out, end, KEYS_AT - end)
}

/// Writes the rows of all keys, and zeros in the place of those that there are not.
fn put_keys(version: Version, out: &mut [u8], at: usize, keys: &KeyBook) -> usize
    requires room { at + key_room_of version ≤ length out.old }
    requires fits { length keys.now ≤ most_keys_of version }
    ensures place { result ≡ at + key_room_of version }
    ensures written { take result out.new ≡ take at out.old ++ padded (key_room_of version) (key_rows keys.now) }
    ensures types { All IsTypedKey keys.now }
{
    let rows = keys.rows();
    let end = put_key_rows(out, at, rows);
    put_zeros(out, end, key_room(version) - KEY_ROW_LENGTH * rows.len())
}

/// Writes the rows of all associations, and zeros in the place of those that there are not.
fn put_associations(version: Version, out: &mut [u8], at: usize, associations: &SaBook) -> usize
    requires room { at + sa_room_of version ≤ length out.old }
    requires fits { length associations.now ≤ most_associations_of version }
    ensures place { result ≡ at + sa_room_of version }
    ensures written { take result out.new
        ≡ take at out.old ++ padded (sa_room_of version) (sa_rows associations.now) }
    ensures types { All IsTypedSa associations.now }
{
    let rows = associations.rows();
    let end = put_sa_rows(out, at, rows);
    put_zeros(out, end, sa_room(version) - SA_ROW_LENGTH * rows.len())
}

/// Writes the content of a state into `out`, all of it, in a version that the state fits.
#[tactic(auto, unfolding(crate::specs::Content::content_of))]
fn write_version(version: Version, state: &State, out: &mut [u8])
    requires fits { FitsVersion version state.now }
    requires sized { length out.old ≡ content_length_of version }
    ensures written { out.new ≡ content_of version state.now }
    ensures rows { HasRows version state.now }
{
    let keys_at = put_counts(version, out, state);
    let associations_at = put_keys(version, out, keys_at, &state.keys);
    put_associations(version, out, associations_at, &state.associations);
}

/// Writes the content of version 1 of a state into `out`, all of it. Takes no memory.
pub fn write_content(state: &State, out: &mut [u8])
    requires fits { FitsVersion One state.now }
    requires sized { length out.old ≡ CONTENT_LENGTH_ONE }
    ensures written { out.new ≡ content_of One state.now }
    // Its rows are values of their types.
    ensures rows { HasRows One state.now }
{
    write_version(Version::One, state, out);
}

/// Writes the content of version 2 of a state into `out`, all of it. It has room for every state. Takes no memory.
pub fn write_content_two(state: &State, out: &mut [u8])
    requires { length out.old ≡ CONTENT_LENGTH_TWO }
    ensures written { out.new ≡ content_of Two state.now }
    // Its rows are values of their types, and fit.
    ensures rows { HasRows Two state.now }
{
    // Their rules say how many rows there are at most.
    let _keys = state.keys.rows();
    let _associations = state.associations.rows();
    write_version(Version::Two, state, out);
}

/// The book of these rows, in their order. `Unfit` comes only if they break a rule of a book. Takes memory for it.
pub fn keys_of(alloc: Global, rows: Vec<KeyRow>) -> Result<KeyBook, RowsFault>
    ensures { MakesOf result IsKeyBook rows.items }
{
    if rows.len() > MOST_KEYS {
        return Err(RowsFault::Unfit);
    }
    if !are_key_rows(&rows) {
        return Err(RowsFault::Unfit);
    }
    match KeyBook::of_rows(alloc, rows) {
        Ok(Some(book)) => {
            let _rules = book.rows();
            Ok(book)
        }
        Ok(None) => Err(RowsFault::Unfit),
        Err(NoMemory) => Err(RowsFault::NoMemory),
    }
}

/// The book of these rows.
fn associations_of(alloc: Global, rows: Vec<SaRow>) -> Result<SaBook, RowsFault>
    ensures { MakesOf result IsSaBook rows.items }
{
    sa_book::rows_may_follow();
    let mut book = SaBook::new(alloc);
    for row in rows {
        if !may_follow_associations(&book, &row) {
            return Err(RowsFault::Unfit);
        }
        book.add_row(row)?;
    }
    let _rules = book.rows();
    Ok(book)
}

fn all_hold_keys(keys: &KeyBook, rows: &[SaRow]) -> bool
    ensures { IsTrue result ↔ All (HasKey keys.now) rows.now }
{
    for row in rows {
        if !holds_key(keys, row) {
            return false;
        }
    }
    true
}

/// The state of this book of keys and of these rows of associations, in their order, with the channels and the device
/// field of a plan. `Unfit` comes only if they break a rule of a state. Takes memory for the book of associations.
pub fn state_of_rows(
    alloc: Global,
    keys: KeyBook,
    associations: Vec<SaRow>,
    channels: ChannelList,
    device: [u8; 4],
) -> Result<State, RowsFault>
    ensures { MakesOf result KeepsRules (state_of keys associations.items channels device) }
{
    let _rules = keys.rows();
    let associations = associations_of(alloc, associations)?;
    if !all_hold_keys(&keys, associations.rows()) {
        return Err(RowsFault::Unfit);
    }
    Ok(State {
        keys,
        associations,
        channels,
        device,
    })
}

/// Where the rows of keys begin, in a content of each version.
pub const KEYS_AT: usize = 503;

/// Where the mark of a key stands in its row, with the floor behind it.
pub(crate) const MARK_AT: usize = 68;

/// Where the counts end.
pub(crate) fn counts_end(version: Version) -> usize
    ensures { result ≡ counts_end_of version }
{
    match version {
        Version::One => 3,
        Version::Two => 4,
    }
}

/// The octets of all rows of keys that there is room for.
pub(crate) fn key_room(version: Version) -> usize
    ensures { result ≡ key_room_of version }
{
    KEY_ROW_LENGTH * version.most_keys()
}

/// The octets of all rows of associations that there is room for.
pub(crate) fn sa_room(version: Version) -> usize
    ensures { result ≡ sa_room_of version }
{
    SA_ROW_LENGTH * version.most_associations()
}

/// Where the rows of associations begin.
pub(crate) fn associations_at(version: Version) -> usize
    ensures { result ≡ associations_at version }
{
    KEYS_AT + key_room(version)
}

fn may_hold(row: &SaRow, held: &KeyRow) -> bool
    ensures { IsTrue result ↔ MayHold row.now held.now }
{
    held.state == KeyState::Active && row.window.high <= held.floor
}

/// Whether the key that the association holds, if it holds one, is an active one of the book, and its highest number
/// is not above the key's floor. Takes no memory.
pub fn holds_key(keys: &KeyBook, row: &SaRow) -> bool
    ensures { IsTrue result ↔ HasKey keys.now row.now }
{
    match row.key {
        None => true,
        Some(key) => match keys.find(key) {
            Some((_, held)) => may_hold(row, held),
            None => false,
        },
    }
}

/// Law: a content is that of one state at most, for the channels and the device field of one plan.
#[tactic(auto, using(crate::proofs::Contents::one_state))]
pub fn one_state()
    ensures { (version : Version) (one other : State) (content : List ℕ)
        → IsContent version one content → IsContent version other content
        → one.channels ≡ other.channels → one.device ≡ other.device → one ≡ other }
{}

/// Law: a restart leaves the content as it is, since the highest numbers are not in it.
#[tactic(auto, using(crate::proofs::Contents::restart_leaves_content))]
pub fn restart_leaves_content()
    ensures { (version : Version) (state : State) → content_of version (restarted state) ≡ content_of version state }
{}

/// Law: where the row of one key changes, its 96 octets of the content change, and no others.
#[tactic(auto, using(crate::proofs::Changing::key_row_changes))]
pub fn key_row_changes()
    ensures { (version : Version) (state : State) (front back : List KeyRow) (old new : KeyRow)
        → HasRows version state → state.keys ≡ front ++ old ∷ back → IsTypedKey new
        → content_of version (record state { keys = front ++ new ∷ back })
        ≡ replaced (KEYS_AT + KEY_ROW_LENGTH * length front) (key_row_octets new)
        (content_of version state) }
{}

/// Law: where the row of one association changes, its 32 octets of the content change, and no others.
#[tactic(auto, using(crate::proofs::Changing::sa_row_changes))]
pub fn sa_row_changes()
    ensures { (version : Version) (state : State) (front back : List SaRow) (old new : SaRow)
        → HasRows version state → state.associations ≡ front ++ old ∷ back → IsTypedSa new
        → content_of version (record state { associations = front ++ new ∷ back })
        ≡ replaced (associations_at version + SA_ROW_LENGTH * length front) (sa_row_octets (sa_parts new))
        (content_of version state) }
{}

/// Law: where the mark and the floor of a key change, 16 octets of its row change, and no others.
#[tactic(auto, using(crate::proofs::Changing::marks_change))]
pub fn marks_change()
    ensures { (row : KeyRow) (mark floor : ℕ) → IsTypedKey row
        → key_row_octets (record row { mark = mark; floor = floor })
        ≡ replaced MARK_AT (to_be_bytes w64 mark ++ to_be_bytes w64 floor) (key_row_octets row) }
{}
