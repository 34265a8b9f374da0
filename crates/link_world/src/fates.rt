//! What a link does with the frames of a drill.
/// What a link does with a frame.
#[derive(Clone, Copy, Debug, PartialEq, Eq)]
pub enum Fate {
    /// It does not arrive.
    Lost,
    /// It arrives in its turn.
    Once,
    /// It arrives in its turn, twice in a row.
    Twice,
    /// It arrives behind the others.
    Late,
}
