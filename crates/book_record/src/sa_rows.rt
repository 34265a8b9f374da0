//! The rows of security associations.
ghost use Rattle.std.specs.Prelude.{◌≡◌, length, IfOk, IfErr, IfSome};
ghost use Rattle.sdls_base.specs.Bounds.{AreChannels};
ghost use Rattle.book_record.specs.declared.sa_rows.SaParts.{SaParts};
ghost use Rattle.book_record.specs.SaParts.{viewed, held_code, sa_parts, sa_row_octets, BeginsAt, HasSaTypes};
ghost use Rattle.book_record.specs.SaParts.{AreSaRowOctets};
ghost use Rattle.book_record.specs.Record.{IsKey};
ghost use Rattle.book_record.specs.Reading.{HasCause, JudgesField, IsReadUnlessNoMemory};
ghost use Rattle.book_record.specs.RowReading.{sa_row_at, MayBeSaRow};

use crate::data::{CHANNEL_ROOM, Data, RecordError, SA_ROW_LENGTH};
use crate::fields::{channel_count, direction, held_key, row_sa_state, spi, suite};
use replay_window::Window;
use sa_book::SaRow;
use sdls_base::{Direction, KeyId, NewSa, Octets, SaState, Spi, Suite, are_channels, number_at};
use std::alloc::Global;

/// The number of a key, 0 where there is none.
fn held_code(key: Option<KeyId>) -> u16
    ensures number { result ≡ held_code key }
    ensures types { IfSome key IsKey }
{
    match key {
        None => 0,
        Some(id) => id.get(),
    }
}

/// Writes the row of an association, 32 octets: index, direction, suite, state, key, count of channels, channels in 8
/// octets, window, zeros. Takes no memory.
#[tactic(auto, unfolding(crate::specs::SaParts::sa_row_octets))]
pub fn write_sa_row(parts: &SaView<'_>) -> [u8; SA_ROW_LENGTH]
    requires { AreChannels parts.now.channels.now }
    ensures spelled { result ≡ sa_row_octets (viewed parts.now) }
    // What is written is a row, which `read_sa_row` reads as these parts.
    ensures row_of { AreSaRowOctets (viewed parts.now) result }
{
    let mut octets = Data::new();
    octets.put_word(parts.spi.get());
    octets.put_octet(parts.direction as u8);
    octets.put_octet(parts.suite as u8);
    octets.put_octet(parts.state as u8);
    octets.put_word(held_code(parts.key));
    octets.put_octet(parts.channels.len() as u8);
    octets.put_padded(parts.channels, CHANNEL_ROOM);
    octets.put_number(parts.window);
    octets.row()
}

/// The row at the places of the octets, whatever stands in those that are not used. Its window begins at 0.
fn sa_row(alloc: Global, row: &[u8]) -> Result<SaRow, RecordError>
    requires { length row.now ≡ SA_ROW_LENGTH }
    ensures { JudgesField result (MayBeSaRow row.now) (sa_row_at row.now) }
{
    let spi = spi(row, 0)?;
    let direction = direction(row[2])?;
    let suite = suite(row[3])?;
    let state = row_sa_state(row[4])?;
    let count = channel_count(row[7])?;
    let channels = &row[8..8 + count];
    if !are_channels(channels) {
        return Err(RecordError::Malformed);
    }
    Ok(SaRow {
        spi,
        direction,
        suite,
        state,
        key: held_key(row, 5),
        channels: Octets::new(Vec::from_slice(alloc, channels)?),
        window: Window::new(0, number_at(row, 16)),
    })
}

/// Reads the row of an association, which is all 32 octets, as a book has it: its window begins at 0, since the highest
/// number is not in the octets. `Malformed` comes exactly where they are no row of an association: also where an octet
/// behind the channels, or at the end, is not zero.
pub fn read_association(alloc: Global, row: &[u8; SA_ROW_LENGTH]) -> Result<SaRow, RecordError>
    // What is read has these octets as its row.
    ensures found { IfOk result (λ association. AreSaRowOctets (sa_parts association) row.now) }
    ensures window { IfOk result (BeginsAt 0) }
    ensures malformed { IfErr result (λ error. HasCause error ((parts : SaParts) → ¬ AreSaRowOctets parts row.now)) }
{
    let association = sa_row(alloc, row)?;
    // An association has one row: the octets that are not used are compared with it.
    if write_sa_row(&SaView::of(&association)) == *row {
        Ok(association)
    } else {
        Err(RecordError::Malformed)
    }
}

/// Reads what the row of an association says, which is all 32 octets. `Malformed` comes exactly where they are no row
/// of an association.
pub fn read_sa_row(alloc: Global, row: &[u8; SA_ROW_LENGTH]) -> Result<SaParts, RecordError>
    // What is read has these octets as its row.
    ensures found { IfOk result (λ parts. AreSaRowOctets parts row.now) }
    // What has these octets as its row is read, unless memory runs out.
    ensures only { (parts : SaParts) → AreSaRowOctets parts row.now → IsReadUnlessNoMemory result parts }
{
    let association = read_association(alloc, row)?;
    Ok(SaParts::of(association))
}

/// What the row of a security association in a bank says. The highest number accepted is not in it.
#[derive(Clone, Debug, Drop)]
pub struct SaParts {
    pub sa: NewSa,
    pub state: SaState,
    pub key: Option<KeyId>,
}

/// The parts of an association's row, borrowed: a row is written of them without taking memory.
#[derive(Clone, Copy, Debug)]
pub struct SaView<'a> {
    pub spi: Spi,
    pub direction: Direction,
    pub suite: Suite,
    /// The width of the anti-replay window.
    pub window: u64,
    /// The numbers of the channels that it covers, one to eight, ascending.
    pub channels: &'a [u8],
    pub state: SaState,
    pub key: Option<KeyId>,
}

impl SaParts {
    ghost use Rattle.std.specs.Prelude.{◌≡◌, ◌<◌, ◌^◌};
    ghost use Rattle.book_record.specs.SaParts.{sa_parts};

    /// What the row of a book says.
    pub fn of(row: SaRow) -> SaParts
        requires { row.window.width < 2 ^ 56 }
        ensures { result ≡ sa_parts row }
    {
        let SaRow {
            spi,
            direction,
            suite,
            state,
            key,
            channels,
            window,
        } = row;
        SaParts {
            sa: NewSa {
                spi,
                direction,
                suite,
                window: window.field(),
                channels,
            },
            state,
            key,
        }
    }
}

impl<'a> SaView<'a> {
    ghost use Rattle.std.specs.Prelude.{◌≡◌, ◌<◌, ◌^◌};
    ghost use Rattle.book_record.specs.SaParts.{sa_parts, viewed};

    /// The row of a book, borrowed.
    pub fn of(row: &'a SaRow) -> SaView<'a>
        requires { row.now.window.width < 2 ^ 56 }
        ensures { viewed result ≡ sa_parts row.now }
    {
        SaView {
            spi: row.spi,
            direction: row.direction,
            suite: row.suite,
            window: row.window.field(),
            channels: row.channels.as_slice(),
            state: row.state,
            key: row.key,
        }
    }
}
