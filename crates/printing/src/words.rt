// Words and numbers, each with the byte behind it: a space, or a newline at the end of a line. A number has at most 20 digits.
ghost use Rattle.std.specs.Prelude.{◌≡◌, ◌+◌, ◌≤◌, length};
ghost use Rattle.rules.specs.Print.{decimal, signed_decimal};
ghost use Rattle.printing.specs.Appended.{Appended, ended};
ghost use Rattle.printing.specs.Room.{number_room, signed_room};

use fields::put_bytes;

pub fn put_word(out: &mut [u8], at: usize, word: &[u8], end: u8) -> usize
    requires { at + length word.now + 1 ≤ length out.old }
    ensures appended { Appended at (ended word.now end) out.old out.new result }
    ensures value { result ≡ at + length word.now + 1 }
{
    put_bytes(out, at, word);
    let next = at + word.len();
    out[next] = end;
    next + 1
}

pub fn put_number(out: &mut [u8], at: usize, n: u64, end: u8) -> usize
    requires { at + number_room ≤ length out.old }
    ensures appended { Appended at (ended (decimal n) end) out.old out.new result }
    ensures upper_bound { result ≤ at + number_room }
{
    let mut digits = [0u8; 20];
    let k = io::decimal(n, &mut digits);
    put_word(out, at, &digits[..k], end)
}

// A minus for a negative number, then its size.
pub fn put_signed(out: &mut [u8], at: usize, z: i64, end: u8) -> usize
    requires { at + signed_room ≤ length out.old }
    ensures appended { Appended at (ended (signed_decimal z) end) out.old out.new result }
    ensures upper_bound { result ≤ at + signed_room }
{
    let size = z.unsigned_abs();
    if z < 0 {
        out[at] = b'-';
        put_number(out, at + 1, size, end)
    } else {
        put_number(out, at, size, end)
    }
}
