ghost use Rattle.std.specs.Prelude.{◌≡◌, ◌+◌, ◌^◌, ◌<◌, ◌==◌};
ghost use Rattle.codeword.specs.Codeword.{bit, bits16, signed16, field};

// The number in so many bits of a word, from a bit up.
pub(crate) fn field(word: u64, low: u32, width: u32) -> u64
    requires { low + width < 64 }
    ensures { result ≡ field low width word }
{
    (word >> low) % (1 << width)
}

// One bit of a word.
pub(crate) fn digit(word: u64, at: u32) -> bool
    requires { at < 63 }
    ensures gives { result ≡ (field at 1 word == 1) }
    ensures undone { bit result ≡ field at 1 word }
{
    field(word, at, 1) == 1
}

// A signed number as sixteen bits.
pub(crate) fn unsigned(base: i16) -> u64
    ensures gives { result ≡ bits16 base }
    ensures within { result < 2 ^ 16 }
{
    base.cast_unsigned() as u64
}

// Sixteen bits, read as a signed number.
pub(crate) fn signed(bits: u64) -> i16
    requires { bits < 2 ^ 16 }
    ensures gives { result ≡ signed16 bits }
    ensures undone { bits16 result ≡ bits }
{
    (bits as u16).cast_signed()
}
