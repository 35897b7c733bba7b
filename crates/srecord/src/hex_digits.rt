// Hexadecimal digits that were checked, and the bytes that they spell.
ghost use Rattle.std.specs.Prelude.{◌≡◌, ◌+◌, ◌*◌, ◌/◌, ◌%◌, ◌<◌, ◌≤◌, true, false, length, take, drop, fold, MatchResult};
ghost use Rattle.std.specs.Iterator.{YieldsFirst, item_count};
ghost use Rattle.srecord.specs.declared.refusal.LineRefusal.TheVariants.{NotHexadecimal};
ghost use Rattle.srecord.specs.Checksum.{checksum_of};
ghost use Rattle.srecord.specs.Digits.{all_digits, byte_at, bytes_of};

use crate::digits::{all_hexadecimal, pair};
use crate::refusal::LineRefusal;

// Characters of which each is a hexadecimal digit.
#[derive(Clone, Copy, Debug)]
pub struct HexDigits<'a> {
    pub characters: &'a [u8],
    pub ghost hexadecimal: { all_digits characters.now ≡ true },
}

// Refuses characters of which one is no digit.
impl<'a> TryFrom<&'a [u8]> for HexDigits<'a> {
    type Error = LineRefusal;

    ghost try_from_gives = { λ characters answer. MatchResult answer
        (λ digits. digits.characters.now ≡ characters.now)
        (λ refusal. (refusal ≡ NotHexadecimal) × (all_digits characters.now ≡ false)) };

    fn try_from(characters: &'a [u8]) -> Result<HexDigits<'a>, LineRefusal> {
        all_hexadecimal(characters)?;
        Ok(HexDigits { characters })
    }
}

impl<'a> HexDigits<'a> {
    // How many digits there are.
    pub(crate) fn len(self) -> usize
        ensures { result ≡ length self.entry.characters.now }
    {
        self.characters.len()
    }

    // The digits before a place, and those from it on.
    pub(crate) fn split_at(self, place: usize) -> (HexDigits<'a>, HexDigits<'a>)
        requires { place ≤ length self.characters.now }
        ensures before { result.0.characters.now ≡ take place self.entry.characters.now }
        ensures after { result.1.characters.now ≡ drop place self.entry.characters.now }
        ensures before_len { length result.0.characters.now ≡ place }
        ensures after_len { length result.1.characters.now + place ≡ length self.entry.characters.now }
    {
        let (before, after) = self.characters.split_at(place);
        (
            HexDigits { characters: before },
            HexDigits { characters: after },
        )
    }

    // Byte `n` that the digits spell, counted from 0.
    pub(crate) fn byte(self, n: usize) -> u8
        requires { 2 * n + 1 < length self.characters.now }
        ensures { result ≡ byte_at self.entry.characters.now n }
    {
        pair(self.characters[2 * n], self.characters[2 * n + 1]).unwrap()
    }

    // The bytes that the digits spell, in order.
    pub(crate) fn bytes(self) -> Bytes<'a>
        ensures { result.rest ≡ self.entry }
    {
        Bytes { rest: self }
    }

    // The ones' complement of the low byte of the sum of these bytes.
    #[tactic(auto, using(crate::proofs::Bytes::complement_of_sum))]
    pub(crate) fn checksum(self) -> u8
        ensures { result ≡ checksum_of self.entry.characters.now (length self.entry.characters.now / 2) }
    {
        !self.bytes().wrapping_sum()
    }
}

// The bytes that digits spell, in order.
#[derive(Drop)]
pub(crate) struct Bytes<'a> {
    rest: HexDigits<'a>,
}

impl<'a> Bytes<'a> {
    // The low byte of their sum.
    fn wrapping_sum(self) -> u8
        ensures { result ≡ fold (λ sum byte. (sum + byte) % 256) 0 (bytes_of self.entry.rest.characters.now) }
    {
        self.fold(0u8, |sum, byte| sum.wrapping_add(byte))
    }
}

impl<'a> Iterator for Bytes<'a> {
    type Item = u8;

    ghost next_gives = { YieldsFirst (λ s. bytes_of s.rest.characters.now) };

    ghost remaining = { item_count (λ s. bytes_of s.rest.characters.now) };

    fn next(&mut self) -> Option<u8> {
        if self.rest.len() < 2 {
            return None;
        }
        let byte = self.rest.byte(0);
        (_, self.rest) = self.rest.split_at(2);
        Some(byte)
    }
}
