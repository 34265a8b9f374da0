ghost use Rattle.std.specs.Prelude.{◌≡◌, ◌↔◌, ℕ, ◌<◌, List, None, slice_index};
ghost use Rattle.ep_codec.specs.declared.command.Command.{Command};
ghost use Rattle.ep_codec.specs.declared.reply_pdu.ReplyPdu.{ReplyPdu};
ghost use Rattle.ep_codec.specs.Command.{IsCommandPdu};
ghost use Rattle.ep_codec.specs.ReplyPdu.{IsReplyPdu};
ghost use Rattle.ep_codec.specs.MessageFault.{command_fault, reply_fault};

/// Law: no two commands share a spelling.
pub fn one_command()
    ensures { (a b : Command) (octets : List ℕ) → IsCommandPdu a octets
        → IsCommandPdu b octets → a ≡ b }
{}

/// Law: octets have no fault exactly where they are the message of a command.
pub fn command_without_fault()
    ensures { (octets : List ℕ) → ((i : ℕ) → slice_index octets i < 256)
        → (command_fault octets ≡ None) ↔ ((command : Command) × IsCommandPdu command octets) }
{}

/// Law: no two replies share a spelling.
pub fn one_reply()
    ensures { (a b : ReplyPdu) (octets : List ℕ) → IsReplyPdu a octets
        → IsReplyPdu b octets → a ≡ b }
{}

/// Law: octets have no fault exactly where they are the message of a reply.
pub fn reply_without_fault()
    ensures { (octets : List ℕ) → ((i : ℕ) → slice_index octets i < 256)
        → (reply_fault octets ≡ None) ↔ ((reply : ReplyPdu) × IsReplyPdu reply octets) }
{}
