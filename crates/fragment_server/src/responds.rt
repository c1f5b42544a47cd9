// The response where each head is answered over one version and each reload request as one that failed.
use crate::FragmentConnection;
use loop_wire::RespondsAt;

impl RespondsAt for FragmentConnection {
    ghost use Rattle.fragment_server.specs.Failing.{failing_response};
    ghost use Rattle.fragment_server.specs.FailingLaws.{begins_there, is_failing, lasts};

    ghost response_at = { failing_response };

    ghost is_response = { is_failing };

    ghost begins_at = { begins_there };

    ghost lasts = { lasts };
}
