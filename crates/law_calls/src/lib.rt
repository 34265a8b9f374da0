//! What calls on the unit that lanes share are as work: what a worker drew, spent, raised and made in a call, and the
//! answer that its record has (profile).
//!
//! There is no code to run here: definitions stand in `specs`, and the functions are laws over them, with an empty
//! body. Each law takes what a call of `shared_unit` ensures, and says which piece of work it is. Those of calls
//! that answer a record are lemmas of `proofs`, which those of other crates cite: read `protecting_answers` first.
#![tactic(auto)]

mod putting;

pub use putting::{putting_settles, putting_works, visiting_works};
