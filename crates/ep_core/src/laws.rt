ghost use Rattle.std.specs.Prelude.{◌≡◌, ◌≢◌, ℕ, ◌<◌, List, ◌∷◌, ◌++◌, length, take};
ghost use Rattle.sdls_header.specs.Authenticated.{authenticated};
ghost use Rattle.unit_state.specs.declared.state.State.{State};
ghost use Rattle.unit_state.specs.State.{KeepsRules};
ghost use Rattle.unit_state.specs.Allows.{Allows};
ghost use Rattle.unit_state.specs.Restart.{still};
ghost use Rattle.ep_codec.specs.declared.command.Command.{Command};
ghost use Rattle.ep_codec.specs.declared.command.Command.TheVariants.{Rekeying};
ghost use Rattle.ep_codec.specs.Command.{IsInBounds, command_octets};
ghost use Rattle.ep_core.specs.declared.refusal.Reply.{Reply};
ghost use Rattle.ep_core.specs.Need.{need_of};
ghost use Rattle.ep_core.specs.Sealed.{front, no_frame};
ghost use Rattle.ep_core.specs.Seen.{MeetsNeed};
ghost use Rattle.ep_core.specs.Step.{IsStep};
ghost use Rattle.sdls_base.specs.declared.entry.Change.{Change};
ghost use Rattle.sdls_base.specs.declared.entry.Seen.{Seen};

/// Law: what a MAC covers of a frame does not begin with four octets ff, whatever the mask, where the frame's first
/// octet is below 192: a frame's version is not 3. So no answer to a challenge covers what a frame's MAC or tag covers.
pub fn no_frame_begins_so()
    ensures { (mask header rest prefix : List ℕ) (octet : ℕ) → octet < 192
        → authenticated mask (octet ∷ prefix) header ≢ no_frame ++ rest }
{}

/// Law: a state allows the change of each step.
pub fn changes_are_allowed()
    ensures { (state : State) (command : Command) (seen : Seen) (step : Change × Reply)
        → KeepsRules state → IsInBounds command → MeetsNeed state (need_of state command) seen
        → IsStep state command seen step → Allows state step.0 }
{}

/// Law: for a command the same has to be seen in states that differ in marks, floors and highest numbers alone.
pub fn needs_alike()
    ensures { (one other : State) (command : Command) → still one ≡ still other
        → need_of one command ≡ need_of other command }
{}

/// Law: what is authenticated with the keys that a Rekeying message brings is the message's first five octets.
pub fn front_is_the_message()
    ensures { (master : ℕ) (vector sealed tag : List ℕ) → length vector ≡ 12 → length tag ≡ 16
        → front master (length sealed) ≡ take 5 (command_octets (Rekeying master vector sealed tag)) }
{}
