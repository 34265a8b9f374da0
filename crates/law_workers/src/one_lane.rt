//! Laws of what one lane did alone.
ghost use Rattle.std.specs.Prelude.{false, ◌≡◌, ℕ, ◌+◌, List, ◌++◌, map, [], ◌∷◌};
ghost use Rattle.sdls_base.specs.declared.entry.Entry.{Entry};
ghost use Rattle.unit_state.specs.State.{KeepsRules};
ghost use Rattle.unit_state.specs.History.{after_all};
ghost use Rattle.record_io.specs.declared.answers.Answer.{Answer};
ghost use Rattle.record_io.specs.declared.reader.RecordKind.TheVariants.{Monitor};
ghost use Rattle.record_io.specs.declared.item_cursor.Record.{Record};
ghost use Rattle.fsr_log.specs.Noted.{Noted};
ghost use Rattle.run_promise.specs.Call.{Begin};
ghost use Rattle.run_promise.specs.Deed.{Deed, deed_of};
ghost use Rattle.run_promise.specs.Words.{Move, Runs};
ghost use Rattle.run_promise.specs.OneLane.{ServesAll};
ghost use Rattle.run_promise.specs.Sound.{AreReported};
ghost use Rattle.counter_table.specs.declared.view.View.{View};
ghost use Rattle.law_workers.specs.Served.{AreServed, SameTasks};
ghost use Rattle.law_workers.specs.Alone.{ServedAlone};
ghost use Rattle.law_workers.specs.Order.{Handled, Layout};
ghost use Rattle.law_workers.specs.Reporting.{IsReportAt, Looked};
ghost use Rattle.law_workers.specs.Words.{MovesCounted};

use frame_shield::protected_once;
use fsr_log::one_message;
use law_history::{messages_have_one_step, messages_need_one, openings_tell_one};

/// Law: one lane alone answers once. From one history and the same words the same records have the same answers, make
/// the same entries and move the words alike, if for none of them the site failed or memory ran out, each state of the
/// history keeps the rules, and each monitoring message has the answer of the log of the answers before it.
pub fn served_once()
    ensures { (begin : Begin) (rows : ℕ) (words : ℕ → ℕ) (before : List Noted) (history : List Entry)
        (deeds others : List Deed) (moves more : List Move) (own entries : List Entry)
        → AreReported before deeds → AreReported before others
        → ((front rest : List Entry) → own ≡ front ++ rest → KeepsRules (after_all begin.start (history ++ front)))
        → SameTasks deeds others → AreServed deeds → AreServed others
        → ServesAll begin false history deeds moves own → ServesAll begin false history others more entries
        → Runs rows words moves → Runs rows words more
        → (map (λ (deed : Deed). deed.answer) deeds ≡ map (λ (deed : Deed). deed.answer) others) × (own ≡ entries)
        × (moves ≡ more) }
{
    messages_need_one();
    messages_have_one_step();
    openings_tell_one();
    protected_once();
    one_message();
}

/// Law: a worker that only looked into the book, to count the entries, handled a Monitor record by that,
/// whatever the log said. One lane alone served it, and it moved no word.
pub fn looking_reports()
    ensures { (begin : Begin) (old new : View) (segment : ℕ) (task : Record) (answer : Answer) → task.kind ≡ Monitor
        → Looked begin old new (task ∷ []) → IsReportAt new answer
        → ((layout : Layout) → Handled layout begin old new (task ∷ []) (deed_of segment task answer ∷ []))
        × ServedAlone begin old new 1 (deed_of segment task answer ∷ [])
        × MovesCounted begin old new (task ∷ []) (deed_of segment task answer ∷ []) }
{}
