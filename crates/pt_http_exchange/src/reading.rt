ghost use Rattle.std.specs.Prelude.{◌≡◌, ◌⊎◌, ℕ, false, List};
ghost use Rattle.pt_http_exchange.specs.Exchange.{is_last};
ghost use Rattle.pt_http_exchange.specs.Message.{BeginsWithMessage, BeginsWithFault};
ghost use Rattle.pt_http_request.specs.declared.fault.RequestFault.{RequestFault};
ghost use Rattle.pt_http_reply.specs.declared.response.Response.TheVariants as response;
ghost use Rattle.pt_http_request.specs.Messages.{IsSameMessage};
ghost use Rattle.pt_http_request.specs.declared.message.Message.{Message};

/// A law: bytes begin with one message or have one first fault, and not both. After a bad head or a bad length, nothing
/// is claimed about the rest.
pub fn bytes_spell_one_message()
    ensures one { (bytes rest more : List ℕ) (message other : Message) → BeginsWithMessage bytes message rest
        → BeginsWithMessage bytes other more
        → IsSameMessage message other × (rest ≡ more) }
    ensures some { (bytes : List ℕ) → ((message : Message) × (rest : List ℕ) × BeginsWithMessage bytes message rest)
        ⊎ ((why : RequestFault) × (rest : List ℕ) × BeginsWithFault bytes why rest) }
    ensures no_fault { (bytes rest more : List ℕ) (message : Message) (why : RequestFault)
        → BeginsWithMessage bytes message rest
        → ¬ (BeginsWithFault bytes why more) }
    ensures one_fault { (bytes rest more : List ℕ) (why other : RequestFault) → BeginsWithFault bytes why rest
        → BeginsWithFault bytes other more
        → why ≡ other }
    ensures one_rest { (bytes rest more : List ℕ) (why other : RequestFault) → BeginsWithFault bytes why rest
        → BeginsWithFault bytes other more
        → is_last (response.Refused why) ≡ false → rest ≡ more }
{}
