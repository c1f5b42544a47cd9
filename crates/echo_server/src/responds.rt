// What a connection that gives back what it gets owes to what was sent.
use crate::Echo;
use loop_wire::RespondsAt;

impl RespondsAt for Echo {
    ghost use Rattle.std.proofs.Common.{refl};
    ghost use Rattle.echo_server.specs.Laws.{begins_there};

    ghost response_at = { λ serving fed. fed };

    ghost is_response = { λ history serving fed marks past marked versions numbers. refl };

    ghost begins_at = { begins_there };

    ghost lasts = { λ serving fed more. (more, refl) };
}
