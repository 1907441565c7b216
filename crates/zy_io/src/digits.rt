//! Numbers, put behind other bytes in decimal digits. The bytes have room for them, and come by value, so that where they
//! lie need not be read again after each digit.
ghost use Rattle.std.specs.Prelude.{◌≡◌, ◌<◌, ◌≤◌, ◌+◌, ◌/◌, ◌%◌, ◌++◌, ◌∷◌, [], vec_capacity, vec_len};
ghost use Rattle.std.specs.Fmt.{decimal};

use crate::appending::with_all;
use itoa::Buffer;

/// Puts a number behind other bytes.
#[inline(always)]
pub(crate) fn with_number(bytes: Vec<u8>, number: u64) -> Vec<u8>
    requires { vec_len bytes + 20 ≤ vec_capacity bytes }
    ensures items { result.items ≡ bytes.items ++ decimal number }
    ensures len { vec_len result ≤ vec_len bytes + 20 }
    ensures room { vec_capacity result ≡ vec_capacity bytes }
{
    if number < 100 {
        return with_front(bytes, number);
    }
    if number < 10000 {
        return with_pair(with_front(bytes, number / 100), number % 100);
    }
    if number < 1000000 {
        let hundreds = with_pair(with_front(bytes, number / 10000), number / 100 % 100);
        return with_pair(hundreds, number % 100);
    }
    with_long(bytes, number)
}

/// Puts a number of any length behind other bytes.
#[cold]
#[inline(never)]
fn with_long(bytes: Vec<u8>, number: u64) -> Vec<u8>
    requires { vec_len bytes + 20 ≤ vec_capacity bytes }
    ensures items { result.items ≡ bytes.items ++ decimal number }
    ensures len { vec_len result ≤ vec_len bytes + 20 }
    ensures room { vec_capacity result ≡ vec_capacity bytes }
{
    with_all(bytes, Buffer::new().format(number).as_bytes())
}

/// Puts a number of one or two digits behind other bytes.
#[inline(always)]
fn with_front(bytes: Vec<u8>, number: u64) -> Vec<u8>
    requires few { number < 100 }
    requires room { vec_len bytes + 2 ≤ vec_capacity bytes }
    ensures items { result.items ≡ bytes.items ++ decimal number }
    ensures len { vec_len result ≤ vec_len bytes + 2 }
    ensures room { vec_capacity result ≡ vec_capacity bytes }
{
    if number < 10 {
        let mut all = bytes;
        all.push_reserved(digit(number));
        return all;
    }
    with_pair(bytes, number)
}

/// The two signs of each number below 100, one number after the other.
const PAIRS: [u8; 200] =
    *b"00010203040506070809101112131415161718192021222324252627282930313233343536373839404142434445464748495051525354555657585960616263646566676869707172737475767778798081828384858687888990919293949596979899";

/// Puts two digits behind other bytes.
#[inline(always)]
fn with_pair(bytes: Vec<u8>, number: u64) -> Vec<u8>
    requires few { number < 100 }
    requires room { vec_len bytes + 2 ≤ vec_capacity bytes }
    ensures items { result.items ≡ bytes.items ++ (48 + number / 10) ∷ (48 + number % 10) ∷ [] }
    ensures len { vec_len result ≡ vec_len bytes + 2 }
    ensures room { vec_capacity result ≡ vec_capacity bytes }
{
    let at = number as usize * 2;
    let mut all = bytes;
    all.push_reserved(PAIRS[at]);
    all.push_reserved(PAIRS[at + 1]);
    all
}

/// The sign of a digit.
#[inline(always)]
fn digit(number: u64) -> u8
    requires { number < 10 }
    ensures { result ≡ 48 + number }
{
    b'0' + number as u8
}
