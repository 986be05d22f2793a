ghost use Rattle.std.specs.Prelude.{◌≡◌};
ghost use Rattle.sccs_tokens.specs.Written.{five};

/// The last five decimal digits of a number, as counts and sums have them: sccsfile(4).
pub fn five_digits(n: u32) -> [u8; 5]
    ensures { result ≡ five n }
{
    [
        b'0' + (n / 10000 % 10) as u8,
        b'0' + (n / 1000 % 10) as u8,
        b'0' + (n / 100 % 10) as u8,
        b'0' + (n / 10 % 10) as u8,
        b'0' + (n % 10) as u8,
    ]
}
