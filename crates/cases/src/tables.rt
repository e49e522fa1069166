// Rule files as bytes: table G of the scope, G with every state starting, tables whose two runs share a beginning or
// not, and tables with many links.

// Writes bytes from a place on, as far as there is room.
pub(crate) fn put(file: &mut [u8], at: usize, bytes: &[u8]) {
    for (place, byte) in file.iter_mut().skip(at).zip(bytes) {
        *place = *byte;
    }
}

// Table G over zeros. Call 10: 0 to 1 `OK`, 0 to 2 `ON`. Internal 1: 1 to 1 `p`, 2 to 2 `p`. Return 11: 1 to 3. Return
// 12: 2 to 3. Starting 0, final 3, one marker, depth cap 4, waiting cap 4.
pub(crate) fn g() -> [u8; 354] {
    let mut file = [0u8; 354];
    put(&mut file, 0, b"\x01\x04\x01\x04\x04\x00\x62\x01");
    put(&mut file, 8, b"\x1c\x00\x00\x01\x1c\x01\x08\x00\x24\x01");
    put(&mut file, 18, b"\x08\x00\x2c\x01\x30\x00\x5c\x01\x06\x00");
    put(&mut file, 29, b"\x03");
    put(&mut file, 38, b"\x01\x02\x02");
    put(&mut file, 284, b"\x01");
    put(&mut file, 292, b"\x08");
    put(
        &mut file,
        300,
        b"\x01\x01\x01\x00\x00\x00\x01\x00\x01\x02\x02\x00\x01\x00\x01\x00",
    );
    put(
        &mut file,
        316,
        b"\x0a\x00\x01\x01\x02\x00\x02\x00\x0a\x00\x02\x01\x04\x00\x02\x00",
    );
    put(
        &mut file,
        332,
        b"\x0b\x01\x03\x01\x06\x00\x00\x00\x0c\x02\x03\x01\x06\x00\x00\x00",
    );
    put(&mut file, 348, b"ppOKON");
    file
}

// G with 64 states, all of them starting.
pub(crate) fn wide() -> [u8; 354] {
    let mut file = g();
    put(&mut file, 1, b"\x40");
    put(&mut file, 284, b"\xff\xff\xff\xff\xff\xff\xff\xff");
    file
}

// Internal 1 from 0 to finals 1, with `a`, and 2, with the part of `aab` of which `word` has start and length.
pub(crate) fn fork(word: &[u8]) -> [u8; 319] {
    let mut file = [0u8; 319];
    put(&mut file, 0, b"\x01\x03\x00\x04\x04\x00\x3f\x01");
    put(&mut file, 8, b"\x1c\x00\x00\x01\x1c\x01\x08\x00\x24\x01");
    put(&mut file, 18, b"\x08\x00\x2c\x01\x10\x00\x3c\x01\x03\x00");
    put(&mut file, 29, b"\x03");
    put(&mut file, 284, b"\x01");
    put(&mut file, 292, b"\x06");
    put(&mut file, 300, b"\x01\x00\x01\x00\x00\x00\x01\x00");
    put(&mut file, 308, b"\x01\x00\x02\x00");
    put(&mut file, 312, word);
    put(&mut file, 316, b"aab");
    file
}

// Eight starting states, each with seven empty-word rows of call 10, to states 0 to 6.
pub(crate) fn crowd() -> [u8; 748] {
    let mut file = [0u8; 748];
    put(&mut file, 0, b"\x01\x08\x01\x04\x04\x00\xec\x02");
    put(&mut file, 8, b"\x1c\x00\x00\x01\x1c\x01\x08\x00\x24\x01");
    put(&mut file, 18, b"\x08\x00\x2c\x01\xc0\x01\xec\x02\x00\x00");
    put(&mut file, 38, b"\x01");
    put(&mut file, 284, b"\xff");
    for k in 0..56u8 {
        put(&mut file, 300 + 8 * usize::from(k), &[10, k / 7, k % 7, 1]);
    }
    file
}

// The same with one row more, from 0 to 7: behind the seven from 0.
pub(crate) fn larger_crowd() -> [u8; 756] {
    let few = crowd();
    let mut file = [0u8; 756];
    put(&mut file, 0, &few);
    put(&mut file, 6, b"\xf4");
    put(&mut file, 22, b"\xc8\x01\xf4");
    put(&mut file, 356, b"\x0a\x00\x07\x01");
    put(&mut file, 364, &few[356..]);
    file
}
