// A connection whose response is a function of what was sent.
ghost use Rattle.std.specs.Prelude.{ℕ, List};
ghost use Rattle.connections.specs.Versions.{Serving};
ghost use Rattle.loop_wire.specs.Response.{IsResponse, BeginsAt, Lasts};

use connections::Converses;

/// A connection whose response follows from what was sent alone, where each head is answered over
/// the version that is served and each reload request as one that failed.
pub trait RespondsAt: Converses {
    /// The response to what was sent.
    ghost response_at: { Serving Self.Server.Data Self.Server.Settings → List ℕ → List ℕ };

    /// It is the response of the kind of connection, for marks of that version.
    ghost is_response: { IsResponse Self.kind response_at };

    /// What was taken and what is pending is a prefix of it.
    ghost begins_at: { BeginsAt Self.kind response_at };

    /// The response to more begins with the response to less.
    ghost lasts: { Lasts response_at };
}
