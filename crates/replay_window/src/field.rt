//! A window field: 8 octets, the first the back window and the other seven the width.

ghost use Rattle.std.specs.Prelude.{◌≡◌, ◌<◌, ◌^◌, ◌↔◌, IsTrue};
ghost use Rattle.replay_window.specs.WindowField.{back_of as back_in, width_of as width_in, IsWindowField};
ghost use Rattle.replay_window.specs.WindowField.{window_field as field_with};

use crate::MOST_BACK;
use sdls_base::MOST_WINDOW;

/// The back window of a window field.
pub fn back_of(field: u64) -> u8
    ensures { result ≡ back_in field }
{
    (field >> 56) as u8
}

/// The width of a window field.
pub fn width_of(field: u64) -> u64
    ensures { result ≡ width_in field }
{
    field % (1 << 56)
}

/// The window field of a back window and a width.
pub fn window_field(back: u8, width: u64) -> u64
    requires { width < 2 ^ 56 }
    ensures { result ≡ field_with back width }
{
    (u64::from(back) << 56) + width
}

/// Whether back window and width of a window field lie in their bounds.
pub fn is_window_field(field: u64) -> bool
    ensures { IsTrue result ↔ IsWindowField field }
{
    let width = width_of(field);
    back_of(field) <= MOST_BACK && 1 <= width && width <= MOST_WINDOW
}
