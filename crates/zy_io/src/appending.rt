//! Bytes put behind others, if there is room for them.
ghost use Rattle.std.specs.Prelude.{◌≡◌, ◌≤◌, ◌+◌, ◌++◌, length, vec_len, vec_capacity};

/// Puts bytes behind others, one by one.
#[inline(always)]
pub(crate) fn with_all(bytes: Vec<u8>, others: &[u8]) -> Vec<u8>
    requires { vec_len bytes + length others.now ≤ vec_capacity bytes }
    ensures items { result.items ≡ bytes.items ++ others.now }
    ensures room { vec_capacity result ≡ vec_capacity bytes }
{
    let mut all = bytes;
    for byte in others {
        all.push_reserved(*byte);
    }
    all
}
