//! Numbers as five marked bytes: byte i is 128 and the i-th digit to the base 128. No byte is zero,
//! so a byte that a crash lost is seen.
ghost use Rattle.std.specs.Prelude.{◌≡◌, length};
ghost use Rattle.store_frames.specs.Frame.{are_marked, marked, unmarked};

// Returns a number below 2^35 as five bytes, the lowest digit first.
pub(crate) fn marked(n: usize) -> [u8; 5]
    ensures { result ≡ marked 5 n }
{
    let b = n / 128;
    let c = b / 128;
    let d = c / 128;
    let e = d / 128;
    [
        128 + (n % 128) as u8,
        128 + (b % 128) as u8,
        128 + (c % 128) as u8,
        128 + (d % 128) as u8,
        128 + (e % 128) as u8,
    ]
}

// Returns the number of five marked bytes.
pub(crate) fn unmarked(bytes: &[u8]) -> usize
    requires { length bytes.now ≡ 5 }
    ensures { result ≡ unmarked bytes.now }
{
    let [a, b, c, d, e] = bytes else {
        return 0;
    };
    let high = usize::from(*d % 128) + 128 * usize::from(*e % 128);
    let low = usize::from(*b % 128) + 128 * (usize::from(*c % 128) + 128 * high);
    usize::from(*a % 128) + 128 * low
}

// Returns whether no byte is below 128.
pub(crate) fn are_marked(bytes: &[u8]) -> bool
    ensures { result ≡ are_marked bytes.now }
{
    for byte in bytes {
        if *byte < 128 {
            return false;
        }
    }
    true
}
