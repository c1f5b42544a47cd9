// The statuses of answers.
ghost use Rattle.std.specs.Prelude.{◌≡◌};
ghost use Rattle.page_responses.specs.Statuses.{body_text, code};

use http::StatusCode;

/// The status of an answer (RFC 9110, section 15; RFC 6585, section 5).
#[derive(Clone, Copy, PartialEq, Eq)]
pub enum Status {
    /// 200
    Success,
    /// 400
    BadRequest,
    /// 404
    NotFound,
    /// 405
    MethodNotAllowed,
    /// 431
    HeaderFieldsTooLarge,
    /// 500
    InternalServerError,
    /// 503
    ServiceUnavailable,
}

impl Status {
    /// The status code.
    pub(crate) fn code(self) -> StatusCode
        ensures { result ≡ code self }
    {
        match self {
            Status::Success => StatusCode::OK,
            Status::BadRequest => StatusCode::BAD_REQUEST,
            Status::NotFound => StatusCode::NOT_FOUND,
            Status::MethodNotAllowed => StatusCode::METHOD_NOT_ALLOWED,
            Status::HeaderFieldsTooLarge => StatusCode::REQUEST_HEADER_FIELDS_TOO_LARGE,
            Status::InternalServerError => StatusCode::INTERNAL_SERVER_ERROR,
            Status::ServiceUnavailable => StatusCode::SERVICE_UNAVAILABLE,
        }
    }

    /// The body of an answer that has no page: the code, the phrase and LF.
    #[tactic(auto, unfolding(crate::specs::Statuses::body_text))]
    pub(crate) fn body(self) -> &'static str
        ensures { result.now ≡ body_text self }
    {
        match self {
            Status::Success => "200 OK\n",
            Status::BadRequest => "400 Bad Request\n",
            Status::NotFound => "404 Not Found\n",
            Status::MethodNotAllowed => "405 Method Not Allowed\n",
            Status::HeaderFieldsTooLarge => "431 Request Header Fields Too Large\n",
            Status::InternalServerError => "500 Internal Server Error\n",
            Status::ServiceUnavailable => "503 Service Unavailable\n",
        }
    }
}
