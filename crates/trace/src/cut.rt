// Cutting octets at a separator.
ghost use Rattle.std.specs.Prelude.{◌≡◌, ℕ, ◌<◌, ◌≤◌, map, length, take, IfSome, ◌≢◌, nat_eq, slice_index};
ghost use Rattle.std.specs.Simd.Lanes.{mask_l};
ghost use Rattle.std.specs.Option.{option_map};
ghost use Rattle.trace.specs.Cuts.{split_once};

use std::simd::prelude::*;

// Which of the first 16 octets are the separator: bit k stands for octet k.
fn matches(octets: &[u8], separator: u8) -> u64
    requires { 16 ≤ length octets.now }
    ensures { result ≡ mask_l (map (λ x. nat_eq x separator) (take 16 octets.now)) }
{
    u8x16::from_slice(octets)
        .simd_eq(u8x16::splat(separator))
        .to_bitmask()
}

// The place of the first separator, or the number of octets where there is none. It looks at 16 octets a turn, then at 4, then at one,
// which is faster than one by one.
fn first_place(octets: &[u8], separator: u8) -> usize
    ensures within { result ≤ length octets.now }
    ensures before { (k : ℕ) → k < result → slice_index octets.now k ≢ separator }
    ensures found { result < length octets.now → slice_index octets.now result ≡ separator }
{
    let mut place = 0;
    while octets.len() - place >= 16 {
        let found = matches(&octets[place..], separator);
        if found != 0 {
            return place + found.trailing_zeros() as usize;
        }
        place += 16;
    }
    while octets.len() - place >= 4 {
        if octets[place] == separator {
            return place;
        }
        if octets[place + 1] == separator {
            return place + 1;
        }
        if octets[place + 2] == separator {
            return place + 2;
        }
        if octets[place + 3] == separator {
            return place + 3;
        }
        place += 4;
    }
    while place < octets.len() && octets[place] != separator {
        place += 1;
    }
    place
}

// What stands before the first separator and what stands behind it, or nothing where there is none.
pub fn split_once(octets: &[u8], separator: u8) -> Option<(&[u8], &[u8])>
    ensures parts { option_map (λ p. (p.0.now, p.1.now)) result ≡ split_once separator octets.now }
    ensures shorter { IfSome result (λ p. length p.1.now < length octets.now) }
{
    let place = first_place(octets, separator);
    if place >= octets.len() {
        return None;
    }
    Some((&octets[0..place], &octets[place + 1..]))
}
