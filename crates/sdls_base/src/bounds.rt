ghost use Rattle.std.specs.Prelude.{◌↔◌, IsTrue};
ghost use Rattle.std.specs.List.Sorted.{IsStrictlyIncreasing};
ghost use Rattle.sdls_base.specs.Bounds.{AreChannels};

use crate::MOST_CHANNELS;

fn ascend(numbers: &[u8]) -> bool
    ensures { IsTrue result ↔ IsStrictlyIncreasing numbers.now }
{
    for next in 1..numbers.len() {
        if numbers[next] <= numbers[next - 1] {
            return false;
        }
    }
    true
}

/// Whether these are one to eight numbers of channels, ascending. Whether one is above 63 is not looked at.
pub fn are_channels(numbers: &[u8]) -> bool
    ensures { IsTrue result ↔ AreChannels numbers.now }
{
    !numbers.is_empty() && numbers.len() <= MOST_CHANNELS && ascend(numbers)
}
