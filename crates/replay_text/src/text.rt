// What a text holds: its fields, a field's number, code, tile, tiles, marks, bytes or list of numbers,
// and a line's board.
ghost use Rattle.std.specs.Prelude.{◌≤◌};

use board::RectangularBoard;
use cells::Cells;
use tile::Tile;
use tiles::Tiles;

// What `number_in` gives for a text that is no number or a greater one.
const NO_NUMBER: u64 = 10_000_000_010;

// The line's field behind the first count blanks, empty where there are fewer.
pub fn field(line: &[u8], count: usize) -> &[u8] {
    line.split(|byte| *byte == b' ').nth(count).unwrap_or(&[])
}

// What a digit stands for, and 10 or more for any other byte.
fn digit(byte: u8) -> u8 {
    byte.wrapping_sub(b'0')
}

// The number of some decimal digits, 0 where there are none; none for other texts and past 64 bits.
fn parsed(text: &[u8]) -> Option<u64> {
    let mut n = 0u64;
    for byte in text {
        if !byte.is_ascii_digit() {
            return None;
        }
        n = n.checked_mul(10)?.checked_add(u64::from(digit(*byte)))?;
    }
    Some(n)
}

// The number of some decimal digits, 0 where there are none; 10,000,000,010 for a greater number and
// for other texts.
pub fn number_in(text: &[u8]) -> usize {
    decimal_in(text).min(NO_NUMBER) as usize
}

// The number of some decimal digits, 0 where there are none; 2^64 - 1 for a greater number and for other
// texts.
pub fn decimal_in(text: &[u8]) -> u64 {
    parsed(text).unwrap_or(u64::MAX)
}

// A part of a list without the byte that ends it, if such a byte does.
fn without_end<F: Fn(&u8) -> bool>(part: &[u8], ends: F) -> &[u8]
    requires { F.IsAlwaysCallable ends }
{
    match part {
        [front @ .., last] if ends(last) => front,
        _ => part,
    }
}

fn is_no_digit(byte: &u8) -> bool {
    !byte.is_ascii_digit()
}

// Stores the decimal numbers of a list, each two parted by one byte, `.` if there are none; gives those
// that are stored. What the words do not hold is not read.
pub fn words_in<'a>(list: &[u8], words: &'a mut [u64]) -> &'a [u64] {
    let mut count = 0;
    if list != b".".as_slice() {
        for part in list.split_inclusive(is_no_digit) {
            if count == words.len() {
                break;
            }
            words[count] = decimal_in(without_end(part, is_no_digit));
            count += 1;
        }
    }
    &words[..count]
}

// The number of a field; where there is no such field, the usual number.
pub fn room_in(text: &[u8], usual: usize) -> usize {
    if text.is_empty() {
        usual
    } else {
        number_in(text)
    }
}

// The code of a direction. Other texts have a code that tile refuses.
pub fn code_in(text: &[u8]) -> u8 {
    match text {
        [byte] => digit(*byte),
        _ => 255,
    }
}

// The tile of a path; an empty text counts as `-`. Other texts have a tile that tile refuses.
pub fn tile_in(path: &[u8]) -> Tile {
    if path == b"-".as_slice() {
        return Tile::box_tile();
    }
    let mut codes = [0; 32];
    for (code, byte) in codes.iter_mut().zip(path) {
        *code = digit(*byte);
    }
    Tile {
        len: path.len(),
        codes,
    }
}

fn is_comma(byte: &u8) -> bool {
    *byte == b','
}

// The tiles of a list of paths; an empty text counts as `.`. A 65th tile is not stored, only counted, and
// tile refuses them all.
pub fn tiles_in(list: &[u8]) -> Tiles {
    let mut tiles = Tiles::new();
    if list != b".".as_slice() {
        for part in list.split_inclusive(is_comma) {
            let tile = tile_in(without_end(part, is_comma));
            tiles = tiles
                .with_tile(tile)
                .unwrap_or(Tiles { count: 65, ..tiles });
        }
    }
    tiles
}

// What a hexadecimal digit stands for, and 0 for any other byte.
fn hex_digit(byte: u8) -> u8
    ensures { result ≤ 15 }
{
    match byte {
        b'0'..=b'9' => byte - b'0',
        b'a'..=b'f' => byte - b'a' + 10,
        _ => 0,
    }
}

// The number of at most 16 hexadecimal digits.
fn hex_in(text: &[u8]) -> u64 {
    text.iter()
        .fold(0, |n, byte| n << 4 | u64::from(hex_digit(*byte)))
}

// Stores the bytes of a text, two hexadecimal digits each, and gives those that are stored; a digit with
// none behind it is not read, so that `-` has no bytes. What there is no room for is not read.
pub fn bytes_in<'a>(text: &[u8], bytes: &'a mut [u8]) -> &'a [u8] {
    let (pairs, _) = text.as_chunks::<2>();
    for (byte, [high, low]) in bytes.iter_mut().zip(pairs) {
        *byte = hex_digit(*high) << 4 | hex_digit(*low);
    }
    let count = pairs.len().min(bytes.len());
    &bytes[..count]
}

// The word of the 16 digits in front of the last so many.
fn word_in(text: &[u8], last: usize) -> u64 {
    let end = text.len().saturating_sub(last);
    let from = end.saturating_sub(16);
    hex_in(&text[from..end])
}

// The cells of a hexadecimal number, whose last 64 digits are read.
fn cells_in(text: &[u8]) -> Cells {
    Cells::of_words(
        word_in(text, 0),
        word_in(text, 16),
        word_in(text, 32),
        word_in(text, 48),
    )
}

// The board of a line, whose fields 1 to 4 are width, height, fixed and laid marks.
pub fn board_in(line: &[u8]) -> RectangularBoard {
    RectangularBoard::of_marks(
        number_in(field(line, 1)),
        number_in(field(line, 2)),
        cells_in(field(line, 3)),
        cells_in(field(line, 4)),
    )
}
