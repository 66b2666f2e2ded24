// Numbers read off a row, modulo a width; and arrays of them, from a place on.
// Rests on the places of lib.
ghost use Rattle.std.specs.Prelude.{◌+◌, ◌≤◌, ◌<◌, ◌≡◌, length};
ghost use Rattle.image.specs.Layout.{image_long};
ghost use Rattle.image.specs.Image.{number, numbers};

use crate::IMAGE;

// ---- one number

pub fn byte(image: &[u64; IMAGE], at: usize) -> u8
    requires { at < image_long }
    ensures { result ≡ number 8 image.now at }
{
    (image[at] % 256) as u8
}

// A number of the row is below 2 ^ 64: the checker knows it of the elements of a slice.
fn word_of(row: &[u64], at: usize) -> u64
    requires { at < length row.now }
    ensures { result ≡ number 64 row.now at }
{
    row[at]
}

pub fn word(image: &[u64; IMAGE], at: usize) -> u64
    requires { at < image_long }
    ensures { result ≡ number 64 image.now at }
{
    word_of(&image[..], at)
}

pub fn count(image: &[u64; IMAGE], at: usize) -> usize
    requires { at < image_long }
    ensures { result ≡ number 64 image.now at }
{
    word(image, at) as usize
}

// ---- arrays

// So many bytes, from a place on.
pub fn bytes_from<const N: usize>(image: &[u64; IMAGE], at: usize) -> [u8; N]
    requires { at + N ≤ image_long }
    ensures { result ≡ numbers 8 image.now at N }
{
    let mut all = [0; N];
    for k in 0..N {
        all[k] = byte(image, at + k);
    }
    all
}

// So many words, from a place on.
pub fn words_from<const N: usize>(image: &[u64; IMAGE], at: usize) -> [u64; N]
    requires { at + N ≤ image_long }
    ensures { result ≡ numbers 64 image.now at N }
{
    let mut all = [0; N];
    for k in 0..N {
        all[k] = word(image, at + k);
    }
    all
}
