// Bytes of a map: whether a run of them is free.
ghost use Rattle.std.specs.Prelude.{◌≡◌, true, ◌+◌, ◌≤◌, length};
ghost use Rattle.verdict.specs.Marks.{Free};

use octets::number;

// Whether no byte of a..b is marked: by numbers of eight bytes, of the last one the bytes before b.
pub fn free(map: &[u8], a: usize, b: usize) -> bool
    requires { b + 8 ≤ length map.now }
    ensures { result ≡ true → Free map.now a b }
{
    if b <= a {
        return true;
    }
    let words = (b - a - 1) / 8;
    for i in 0..words {
        if number::read_u64(map, a + 8 * i) != 0 {
            return false;
        }
    }
    let left = b - a - 8 * words;
    number::read_u64(map, b - left) << (64 - 8 * left) == 0
}
