//! Bytes, numbers and counts in front of what was written before.
ghost use Rattle.std.specs.Prelude.{◌≡◌, ◌++◌, ◌∷◌, ◌+◌, ◌<◌, ◌≤◌, length, drop};
ghost use Rattle.std.specs.Fmt.{decimal};
ghost use Rattle.written_items.specs.Items.{count_text};

use itoa::write_digits;

/// Writes a byte in front of `end`, and tells where it stands.
#[inline(always)]
pub fn write_byte(room: &mut [u8], end: usize, byte: u8) -> usize
    requires from { 0 < end }
    requires to { end ≤ length room.old }
    ensures start { result + 1 ≡ end }
    ensures text { drop result room.new ≡ byte ∷ drop end room.old }
{
    room[end - 1] = byte;
    end - 1
}

/// Writes a number so that it ends at `end`, and tells where it begins.
#[inline(always)]
pub fn write_number(room: &mut [u8], end: usize, number: u32) -> usize
    requires from { 10 ≤ end }
    requires to { end ≤ length room.old }
    ensures within { result ≤ end }
    ensures short { end ≤ result + 10 }
    ensures text { drop result room.new ≡ decimal number ++ drop end room.old }
{
    write_digits(u64::from(number), room, end)
}

/// Writes a count so that it ends at `end`, nothing for 1, and tells where it begins.
#[inline(always)]
pub fn write_count(room: &mut [u8], end: usize, count: u32) -> usize
    requires from { 10 ≤ end }
    requires to { end ≤ length room.old }
    ensures within { result ≤ end }
    ensures short { end ≤ result + 10 }
    ensures text { drop result room.new ≡ count_text count ++ drop end room.old }
{
    if count == 1 {
        return end;
    }
    write_number(room, end, count)
}
