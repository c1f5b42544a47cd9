// What a call over a wire came to, as what the whole query came to.
ghost use Rattle.std.specs.Prelude.{◌≡◌, Ok, Err};

use answer_faults::AnswerFault;
use tpf_client::ClientFault;

/// What a call over the wire came to, as what the whole query came to.
pub fn answered<T>(came: Result<T, ClientFault>) -> Result<T, AnswerFault>
    ensures ok { (answer : T) → came ≡ Ok answer → result ≡ Ok answer }
    ensures err { (fault : ClientFault) → came ≡ Err fault → result ≡ Err (AnswerFault.Client fault) }
{
    match came {
        Ok(answer) => Ok(answer),
        Err(fault) => Err(AnswerFault::Client(fault)),
    }
}
