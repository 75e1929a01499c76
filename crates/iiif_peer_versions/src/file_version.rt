//! Versions of files.

ghost use Rattle.std.specs.Prelude.{◌≡◌, ◌<◌, ◌+◌, ◌*◌, ◌^◌};
ghost use Rattle.iiif_peer_versions.specs.Digits.{hex_digit, version_digits};

/// A version of a file: its length in bytes, and when its bytes were last changed, in nanoseconds since the beginning of 1970. A file whose
/// bytes are changed has another one, as far as the file system tells the time.
#[derive(Clone, Copy, Debug, PartialEq, Eq)]
pub struct FileVersion {
    pub len: u64,
    pub changed: u64,
}

/// The hexadecimal digit of a number below 16.
fn hex_digit(number: u64) -> u8
    requires { number < 16 }
    ensures { result ≡ hex_digit number }
{
    if number < 10 {
        b'0' + number as u8
    } else {
        b'a' + (number - 10) as u8
    }
}

/// The number above each that half of the digits can tell.
const HALF: u128 = 1 << 64;

impl FileVersion {
    /// One number for both.
    fn number(self) -> u128
        ensures { result ≡ self.len * 2 ^ 64 + self.changed }
    {
        u128::from(self.len) * HALF + u128::from(self.changed)
    }

    /// The digits by which it is told: sixteen of the length, and sixteen of the time.
    pub fn digits(self) -> [u8; 32]
        ensures { result ≡ version_digits self }
    {
        let mut digits = [b'0'; 32];
        let mut left = self.number();
        let mut at = 32;
        while at > 0 {
            at -= 1;
            digits[at] = hex_digit((left % 16) as u64);
            left /= 16;
        }
        digits
    }
}
