// The laws of requests: what is read of one stays, and which heads the bytes of a connection are.
ghost use Rattle.std.specs.Prelude.{ℕ, List, ◌≡◌, ◌<◌, ◌≤◌, ◌++◌, length};
ghost use Rattle.tpf_base.specs.HttpHeads.{Request, Taken, Refused, next_request};
ghost use Rattle.tpf_base.specs.HttpConnection.{HeadsAreRead, AllHeadsAreRead, HeadsGoOn};

/// The bytes that follow a whole request, or a refusal, do not change it; a request takes at least
/// one byte, and no more than there are.
pub fn a_request_stays()
    ensures taken { (xs ys : List ℕ) (r : Request) (n : ℕ) → next_request xs ≡ Taken r n
        → next_request (xs ++ ys) ≡ Taken r n }
    ensures within { (xs : List ℕ) (r : Request) (n : ℕ) → next_request xs ≡ Taken r n
        → (0 < n) × (n ≤ length xs) }
    ensures refused { (xs ys : List ℕ) (status : ℕ) → next_request xs ≡ Refused status
        → next_request (xs ++ ys) ≡ Refused status }
{}

/// The heads of a connection (RFC 9112, section 9.3) are the next request and then the heads of what
/// follows it, up to the first that closes: what a feed that takes all bytes gives, one after
/// another. Unless they close, what is left holds no whole head, and more bytes only go on.
pub fn heads_are_read()
    ensures first { HeadsAreRead }
    ensures all { AllHeadsAreRead }
    ensures more { HeadsGoOn }
{}
