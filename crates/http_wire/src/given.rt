// A list of bytes whose first ones are given away.
ghost use Rattle.std.specs.Prelude.{◌≡◌, ◌≤◌, ◌+◌, length, drop};

/// Drops the bytes that were given away, where they are more than the others, and tells how many of
/// them are left: at most half of all that are. So no byte is moved more than once for one that is
/// given, and what is kept is at most twice what is held. Where all were given their memory stays.
pub fn drop_given(bytes: &mut Vec<u8>, given: usize) -> usize
    requires { given ≤ length bytes.old.items }
    ensures held { drop result bytes.new.items ≡ drop given bytes.old.items }
    ensures half { result + result ≤ length bytes.new.items }
{
    if given == bytes.len() {
        bytes.clear();
        return 0;
    }
    if given > bytes.len() - given {
        bytes.drain(..given);
        return 0;
    }
    given
}
