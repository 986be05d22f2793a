ghost use Rattle.std.specs.Prelude.{◌≡◌, ◌≤◌, length};
ghost use Rattle.sccs_table.specs.Runs.{lf_count};

// how many of so few bytes are LF; a byte counts them, so that many are compared at once
#[inline(always)]
fn few_lines(bytes: &[u8]) -> u8
    requires { length bytes.now ≤ 255 }
    ensures { result ≡ lf_count bytes.now }
{
    let mut count = 0;
    for byte in bytes {
        if *byte == b'\n' {
            count += 1;
        }
    }
    count
}

/// How many bytes are LF.
pub fn lines_in(bytes: &[u8]) -> u64
    ensures { result ≡ lf_count bytes.now }
{
    let mut count = 0;
    let mut rest = bytes;
    'parts: while rest.len() >= 192 {
        let (part, behind) = rest.split_at(192);
        count += u64::from(few_lines(part));
        rest = behind;
    }
    count + u64::from(few_lines(rest))
}
