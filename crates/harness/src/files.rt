// The bytes of files: writing them, and the numbers of a header.
ghost use Rattle.std.specs.Prelude.{◌≤◌, ◌<◌};

// Writes the low byte of a number, where there is room.
pub fn put_byte(file: &mut [u8], at: usize, value: usize) {
    if let Some(byte) = file.get_mut(at) {
        *byte = (value % 256) as u8;
    }
}

// Writes a 16-bit number, where there is room.
pub fn put16(file: &mut [u8], at: usize, value: usize)
    requires { at < 65536 }
{
    put_byte(file, at, value);
    put_byte(file, at + 1, value / 256);
}

// The 16-bit number at a place of the header, counted in such numbers, of a file with so many states and edges.
pub fn header_word(place: usize, states: usize, edges: usize, start: usize) -> usize
    requires states_bound { states ≤ 4097 }
    requires edges_bound { edges ≤ 8194 }
{
    match place {
        0 => states,
        1 => edges,
        2 => start,
        4 => 24,
        6 => 26 + 2 * states,
        8 => 26 + 2 * states + 2 * edges,
        10 => 26 + 2 * states + 2 * edges + (states + 7) / 8,
        _ => 0,
    }
}
