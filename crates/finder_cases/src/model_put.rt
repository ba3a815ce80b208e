// The models of the cases, by the first letter of their name.
use case_text::make;

// The buffer for a file.
pub type File = [u8; 25800];

// Makes the buffer the file of a model: eight, nine, ring and over are rings of 8, 9, 4,096 and 4,097 states, ladder has
// 2,048 rungs of two states, whose edges lead to both of the next rung; they start at state 0, and their last state is
// marked. D is the example: 0→1, 0→2, 1→3, 2→3, 3→1, 3→2, 4→4, marks 3 and 4. Any other letter stands for a buffer of zeros,
// as which it is lent.
pub fn put_model(rt: &impl Print, letter: u8, file: &mut File) {
    match letter {
        b'e' => {
            make(rt, b"h8 8 0 r0 1 9 65536 r1 1 8 8 b128", file);
        }
        b'n' => {
            make(rt, b"h9 9 0 r0 1 10 65536 r1 1 9 9 b0 b1", file);
        }
        b'r' => {
            make(
                rt,
                b"h4096 4096 0 r0 1 4097 65536 r1 1 4096 4096 s0 0 511 1 b128",
                file,
            );
        }
        b'o' => {
            make(
                rt,
                b"h4097 4097 0 r0 1 4098 65536 r1 1 4097 4097 s0 0 512 1 b1",
                file,
            );
        }
        b'l' => {
            make(
                rt,
                b"h4096 8192 0 r0 2 4097 65536 l2 4096 8192 s0 0 511 1 b128",
                file,
            );
        }
        b'D' => {
            make(rt, b"h5 7 0 0 2 3 4 6 7 1 2 3 3 1 2 4 b24", file);
        }
        _ => {}
    }
}
