// Which byte of an image is wrong, the lowest first (R83). A byte that is not there is not wrong: the length is, and it is looked at last.
ghost use Rattle.std.specs.Prelude.{◌≡◌, ◌+◌, ◌≤◌, length, drop, true, None};
ghost use Rattle.image.specs.Loading.{blank_from, slot_wrong, slots_wrong, version_wrong, length_wrong, wrong_in};

use crate::kinds::{LEAVING, NOTHING, RUNNING, WAITING};
use crate::numbers::eight_at;
use crate::{COUNTS, SIZE, SLOTS, VERSION};

// R81, R83: from which byte on a slot of this kind has zeros only.
fn blank_from(kind: u8) -> usize
    ensures { (result ≡ blank_from kind) × (result ≤ 9) }
{
    match kind {
        NOTHING => 1,
        RUNNING | LEAVING => 9,
        WAITING => 7,
        _ => 0,
    }
}

// R83: the lowest wrong byte of the slot in front.
fn slot_wrong(s: &[u8]) -> Option<usize>
    ensures { result ≡ slot_wrong s.now }
{
    let kind = *s.first()?;
    (blank_from(kind)..s.len().min(9)).find(|i| s[*i] != 0)
}

// R83: the lowest wrong byte of the slots.
fn slots_wrong(image: &[u8]) -> Option<usize>
    ensures { result ≡ slots_wrong 16 9 (drop 9 image.now) }
{
    for k in 0..16 {
        let at = SLOTS + 9 * k;
        if let Some(i) = slot_wrong(image.get(at..)?) {
            return Some(at + i);
        }
    }
    None
}

// R83: a wrong length, at the lesser of the two.
fn length_wrong(len: usize) -> Option<usize>
    ensures { result ≡ length_wrong 298 len }
{
    (len != SIZE).then_some(len.min(SIZE))
}

// R81, R83: the first byte is the version, 4.
fn version_wrong(image: &[u8]) -> Option<usize>
    ensures { result ≡ version_wrong image.now }
{
    (image.first() != Some(&VERSION)).then_some(0)
}

// R83: the nine bytes in front, at one look: whether it finds nothing wrong with them. It says whether, and `slot_wrong` where.
fn slot_right(s: &[u8]) -> bool
    requires { 9 ≤ length s.now }
    ensures { result ≡ true → slot_wrong s.now ≡ None }
{
    let v = eight_at(s, 1);
    match s[0] {
        NOTHING => v == 0,
        RUNNING | LEAVING => true,
        WAITING => v < 281474976710656,
        _ => false,
    }
}

// R83: every slot at one look each.
fn slots_right(image: &[u8]) -> bool
    requires { 153 ≤ length image.now }
    ensures { result ≡ true → slots_wrong 16 9 (drop 9 image.now) ≡ None }
{
    (0..16).all(|k| slot_right(&image[SLOTS + 9 * k..]))
}

// R83: the lowest wrong byte of the slots. An image that is nearly always right is looked at a slot at a time first.
fn slots_judged(image: &[u8]) -> Option<usize>
    ensures { result ≡ slots_wrong 16 9 (drop 9 image.now) }
{
    if COUNTS <= image.len() && slots_right(image) {
        return None;
    }
    slots_wrong(image)
}

// R83: the lowest offset at which the image is wrong.
pub(crate) fn wrong_in(image: &[u8]) -> Option<usize>
    ensures { result ≡ wrong_in 16 image.now }
{
    version_wrong(image)
        .or_else(|| slots_judged(image))
        .or_else(|| length_wrong(image.len()))
}
