// Little-endian numbers in a slice of bytes.
ghost use Rattle.std.specs.Prelude.{◌≡◌, ◌+◌, ◌*◌, ◌/◌, ◌%◌, ◌≤◌, ◌<◌, length, get_or};
ghost use Rattle.format.specs.Bytes.{bitb};
ghost use Rattle.format.specs.Bytes;

// The 16-bit number at a byte place.
pub fn word(file: &[u8], at: usize) -> usize
    requires { at + 1 < length file.now }
    ensures { (result ≡ Rattle.format.specs.Bytes.word file.now at) × (result < 65536) }
{
    usize::from(u16::from_le_bytes([file[at], file[at + 1]]))
}

// The entry at place k of the table of 16-bit numbers that starts at a byte place.
pub fn entry_at(file: &[u8], table: usize, k: usize) -> usize
    requires { table + 2 * k + 1 < length file.now }
    ensures { (result ≡ Rattle.format.specs.Bytes.word file.now (table + 2 * k)) × (result < 65536) }
{
    word(file, table + 2 * k)
}

// The 32-bit number at a byte place.
pub fn long(file: &[u8], at: usize) -> usize
    requires { at + 3 < length file.now }
    ensures { result ≡ Rattle.format.specs.Bytes.long file.now at }
{
    u32::from_le_bytes([file[at], file[at + 1], file[at + 2], file[at + 3]]) as usize
}

// Bit s of the bytes from a place on, eight to a byte, bit 0 worth 1.
pub fn bit(file: &[u8], at: usize, s: usize) -> bool
    requires { at + s / 8 < length file.now }
    ensures { result ≡ bitb (get_or file.now (at + s / 8) 0) (s % 8) }
{
    (file[at + s / 8] >> (s % 8)) % 2 == 1
}

// The same bit, where the byte may be past the end of the file: there no bit is set.
pub fn bit_if_there(file: &[u8], at: usize, s: usize) -> bool
    requires { (at ≤ 65535) × (s ≤ 65535) }
    ensures { result ≡ bitb (get_or file.now (at + s / 8) 0) (s % 8) }
{
    at + s / 8 < file.len() && bit(file, at, s)
}
