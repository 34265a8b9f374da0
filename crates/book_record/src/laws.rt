ghost use Rattle.std.specs.Prelude.{◌≡◌, ℕ, List, Some};
ghost use Rattle.key_book.specs.declared.key_row.KeyRow.{KeyRow};
ghost use Rattle.book_record.specs.declared.sa_rows.SaParts.{SaParts};
ghost use Rattle.book_record.specs.KeyParts.{AreKeyRowOctets};
ghost use Rattle.book_record.specs.Reading.{change_of};
ghost use Rattle.book_record.specs.Record.{IsRecord};
ghost use Rattle.book_record.specs.SaParts.{AreSaRowOctets};
ghost use Rattle.sdls_base.specs.declared.entry.Change.{Change};

/// Law: no two changes have one record.
pub fn one_change()
    ensures { (a b : Change) (body : List ℕ) → IsRecord a body → IsRecord b body → a ≡ b }
{}

/// Law: a record is that of the change which stands at the places of its kind.
pub fn change_of_its_kind()
    ensures { (change : Change) (body : List ℕ) → IsRecord change body → change_of body ≡ Some change }
{}

/// Law: no two keys have one row.
#[tactic(auto, using(crate::proofs::Rows::one_key_row))]
pub fn one_key_row()
    ensures { (a b : KeyRow) (row : List ℕ) → AreKeyRowOctets a row → AreKeyRowOctets b row → a ≡ b }
{}

/// Law: no two associations have one row.
#[tactic(auto, using(crate::proofs::Rows::one_sa_row))]
pub fn one_sa_row()
    ensures { (a b : SaParts) (row : List ℕ) → AreSaRowOctets a row → AreSaRowOctets b row → a ≡ b }
{}
