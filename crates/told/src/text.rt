// Bytes written at a place of a lent buffer; each function answers the place after them.
// Kept by hand: of a `write!` a clause knows the bytes only on its Ok, and no clause says that there is room for an Ok.
ghost use Rattle.std.specs.Prelude.{◌+◌, ◌≤◌, length};
ghost use Rattle.rules.specs.Script.{decimal};
ghost use Rattle.told.specs.Put.{Put};

pub fn put_text(out: &mut [u8], at: usize, text: &[u8]) -> usize
    requires { at + length text.now ≤ length out.old }
    ensures { Put out.old at text.now out.new result }
{
    let end = at + text.len();
    out[at..end].copy_from_slice(text);
    end
}

// Script: decimal without leading zeros. A recursion, since the first digit is the last one known.
pub fn put_decimal(out: &mut [u8], at: usize, n: u64) -> usize
    requires { at + 20 ≤ length out.old }
    ensures put { Put out.old at (decimal n) out.new result }
    ensures upper_bound { result ≤ at + 20 }
{
    if n < 10 {
        out[at] = b'0' + n as u8;
        return at + 1;
    }
    let last = put_decimal(out, at, n / 10);
    out[last] = b'0' + (n % 10) as u8;
    last + 1
}
