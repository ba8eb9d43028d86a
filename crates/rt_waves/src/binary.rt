//! Numbers in binary.

ghost use Rattle.std.specs.Prelude.{◌≡◌, ◌+◌, ◌^◌, ◌<◌, ◌≤◌, length, false};
ghost use Rattle.std.specs.Fmt.{digits};
ghost use Rattle.rt_trace.specs.Placed.{Placed};
ghost use Rattle.rt_waves.specs.Working.Binary.{eight_digits};

use rt_trace::place_front;

/// The binary digits of each byte, eight of each.
static EIGHTS: [u8; 2048] =
    *b"00000000000000010000001000000011000001000000010100000110000001110000100000001001000010100000101100001100000011010000111000001111000100000001000100010010000100110001010000010101000101100001011100011000000110010001101000011011000111000001110100011110000111110010000000100001001000100010001100100100001001010010011000100111001010000010100100101010001010110010110000101101001011100010111100110000001100010011001000110011001101000011010100110110001101110011100000111001001110100011101100111100001111010011111000111111010000000100000101000010010000110100010001000101010001100100011101001000010010010100101001001011010011000100110101001110010011110101000001010001010100100101001101010100010101010101011001010111010110000101100101011010010110110101110001011101010111100101111101100000011000010110001001100011011001000110010101100110011001110110100001101001011010100110101101101100011011010110111001101111011100000111000101110010011100110111010001110101011101100111011101111000011110010111101001111011011111000111110101111110011111111000000010000001100000101000001110000100100001011000011010000111100010001000100110001010100010111000110010001101100011101000111110010000100100011001001010010011100101001001010110010110100101111001100010011001100110101001101110011100100111011001111010011111101000001010000110100010101000111010010010100101101001101010011110101000101010011010101010101011101011001010110110101110101011111011000010110001101100101011001110110100101101011011011010110111101110001011100110111010101110111011110010111101101111101011111111000000110000011100001011000011110001001100010111000110110001111100100011001001110010101100101111001100110011011100111011001111110100001101000111010010110100111101010011010101110101101101011111011000110110011101101011011011110111001101110111011110110111111110000011100001111000101110001111100100111001011110011011100111111010001110100111101010111010111110110011101101111011101110111111110000111100011111001011110011111101001111010111110110111101111111100011111001111110101111101111111100111111011111111011111111";

/// How many of them each byte has without leading zeros.
static COUNTS: [u8; 256] = [
    1, 1, 2, 2, 3, 3, 3, 3, 4, 4, 4, 4, 4, 4, 4, 4, 5, 5, 5, 5, 5, 5, 5, 5, 5, 5, 5, 5, 5, 5, 5, 5,
    6, 6, 6, 6, 6, 6, 6, 6, 6, 6, 6, 6, 6, 6, 6, 6, 6, 6, 6, 6, 6, 6, 6, 6, 6, 6, 6, 6, 6, 6, 6, 6,
    7, 7, 7, 7, 7, 7, 7, 7, 7, 7, 7, 7, 7, 7, 7, 7, 7, 7, 7, 7, 7, 7, 7, 7, 7, 7, 7, 7, 7, 7, 7, 7,
    7, 7, 7, 7, 7, 7, 7, 7, 7, 7, 7, 7, 7, 7, 7, 7, 7, 7, 7, 7, 7, 7, 7, 7, 7, 7, 7, 7, 7, 7, 7, 7,
    8, 8, 8, 8, 8, 8, 8, 8, 8, 8, 8, 8, 8, 8, 8, 8, 8, 8, 8, 8, 8, 8, 8, 8, 8, 8, 8, 8, 8, 8, 8, 8,
    8, 8, 8, 8, 8, 8, 8, 8, 8, 8, 8, 8, 8, 8, 8, 8, 8, 8, 8, 8, 8, 8, 8, 8, 8, 8, 8, 8, 8, 8, 8, 8,
    8, 8, 8, 8, 8, 8, 8, 8, 8, 8, 8, 8, 8, 8, 8, 8, 8, 8, 8, 8, 8, 8, 8, 8, 8, 8, 8, 8, 8, 8, 8, 8,
    8, 8, 8, 8, 8, 8, 8, 8, 8, 8, 8, 8, 8, 8, 8, 8, 8, 8, 8, 8, 8, 8, 8, 8, 8, 8, 8, 8, 8, 8, 8, 8,
];

/// Puts the eight digits of a byte at a place, and answers the place behind them.
#[inline(always)]
fn place_eight(bytes: &mut [u8], at: usize, byte: u8) -> usize
    requires { at + 8 ≤ length bytes.old }
    ensures text { Placed bytes.old bytes.new at (eight_digits byte) result }
    ensures end { result ≡ at + 8 }
{
    place_front::<8>(bytes, at, &EIGHTS[byte as usize * 8..], 8)
}

/// Puts a byte in binary, without leading zeros, at a place that has room for 8 bytes, and answers the place behind it.
#[inline(always)]
fn place_first(bytes: &mut [u8], at: usize, byte: u8) -> usize
    requires { at + 8 ≤ length bytes.old }
    ensures text { Placed bytes.old bytes.new at (digits 2 false byte) result }
    ensures short { result ≤ at + 8 }
{
    let count = COUNTS[byte as usize] as usize;
    let end = byte as usize * 8 + 8;
    place_front::<8>(bytes, at, &EIGHTS[end - count..], count)
}

/// Puts a number below 2^16 in binary, without leading zeros, at a place that has room for 16 bytes, and answers the place behind it.
#[inline(always)]
fn place_half(bytes: &mut [u8], at: usize, number: u16) -> usize
    requires { at + 16 ≤ length bytes.old }
    ensures text { Placed bytes.old bytes.new at (digits 2 false number) result }
    ensures short { result ≤ at + 16 }
{
    if number < 256 {
        return place_first(bytes, at, number as u8);
    }
    let at = place_first(bytes, at, (number / 256) as u8);
    place_eight(bytes, at, (number % 256) as u8)
}

/// Puts a word in binary, without leading zeros, at a place that has room for 32 bytes, and answers the place behind it.
#[inline(always)]
fn place_word(bytes: &mut [u8], at: usize, word: u32) -> usize
    requires { at + 32 ≤ length bytes.old }
    ensures text { Placed bytes.old bytes.new at (digits 2 false word) result }
    ensures short { result ≤ at + 32 }
{
    if word < 256 {
        return place_first(bytes, at, word as u8);
    }
    if word < 65536 {
        return place_half(bytes, at, word as u16);
    }
    let at = place_half(bytes, at, (word / 65536) as u16);
    let at = place_eight(bytes, at, (word / 256 % 256) as u8);
    place_eight(bytes, at, (word % 256) as u8)
}

/// Puts a number from 2^32 on in binary at a place that has room for 64 bytes, and answers the place behind it.
#[inline(never)]
fn place_long(bytes: &mut [u8], at: usize, number: u64) -> usize
    requires large { 2 ^ 32 ≤ number }
    requires room { at + 64 ≤ length bytes.old }
    ensures text { Placed bytes.old bytes.new at (digits 2 false number) result }
    ensures short { result ≤ at + 64 }
{
    let at = place_word(bytes, at, (number / 4_294_967_296) as u32);
    let at = place_eight(bytes, at, (number / 16_777_216 % 256) as u8);
    let at = place_eight(bytes, at, (number / 65536 % 256) as u8);
    let at = place_eight(bytes, at, (number / 256 % 256) as u8);
    place_eight(bytes, at, (number % 256) as u8)
}

/// Puts a number in binary, without leading zeros, at a place that has room for 64 bytes, and answers the place behind it. It stores
/// eight digits at once.
#[inline(always)]
pub(crate) fn place_binary(bytes: &mut [u8], at: usize, number: u64) -> usize
    requires { at + 64 ≤ length bytes.old }
    ensures text { Placed bytes.old bytes.new at (digits 2 false number) result }
    ensures small { number < 2 ^ 32 → result ≤ at + 32 }
    ensures short { result ≤ at + 64 }
{
    if number < 4_294_967_296 {
        return place_word(bytes, at, number as u32);
    }
    place_long(bytes, at, number)
}
