//! What follows from the definitions.
ghost use Rattle.std.specs.Prelude.{ℕ, List, ◌≡◌, unwrap_or};
ghost use Rattle.unit_plan.specs.Lines.{lines_of};
ghost use Rattle.key_book.specs.declared.key_row.KeyRow.{KeyRow};
ghost use Rattle.sa_book.specs.declared.sa_book.SaRow.{SaRow};
ghost use Rattle.record_io.specs.Input.{Item};
ghost use Rattle.status_text.specs.Text.{association_line, key_line, slots_line};
ghost use Rattle.input_text.specs.declared.line.Line.{Line};
ghost use Rattle.input_text.specs.Line.{IsLine, SaysLine, line_words};
ghost use Rattle.text_streams.specs.Spelling.{SayItems, SpellsAll, joined};
ghost use Rattle.text_streams.specs.declared.state_line.StateLine.TheVariants as lines;
ghost use Rattle.text_streams.specs.StateText.{state_text};

/// Law: the words of a line in bounds, one space between two of them, say this line.
#[tactic(auto, using(crate::proofs::SaidAgain::says_itself))]
pub fn line_says_itself()
    ensures { (line : Line) → IsLine line → SaysLine (joined (line_words line)) line }
{}

/// Law: the lines of items, one after the other, say these items.
#[tactic(auto, using(crate::proofs::SaidAgain::said_again))]
pub fn items_said_again()
    ensures { (items : List Item) (text : List ℕ) → SpellsAll items text → SayItems (lines_of text) items }
{}

/// Law: what `stat` prints of the slots, of a key and of an association is such a line.
#[tactic(auto, unfolding(status_text::specs::Text::key_line, status_text::specs::Text::association_line))]
pub fn rows_have_lines()
    ensures slots { (used slots : ℕ) → slots_line used slots ≡ state_text (lines.Slots used slots) }
    ensures key { (row : KeyRow) → key_line row ≡ state_text (lines.Key row.id row.state row.mark row.floor) }
    ensures association { (row : SaRow) → association_line row ≡ state_text (lines.Association row.spi row.direction
        row.suite row.state (unwrap_or row.key 0) row.window.width row.window.back) }
{}
