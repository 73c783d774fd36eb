//! The four types without a sign.

ghost use Rattle.std.specs.Prelude.{pos, true};

use crate::lane::Lane;
use std::simd::prelude::*;

impl Lane for u8 {
    ghost whole = { λ x. pos x };

    ghost own = { λ _. true };

    fn show(self) {}

    fn is_at_least(self, v: u8) -> bool {
        self >= v
    }

    fn is_within(self, lo: u8, hi: u8) -> bool {
        lo <= self && self <= hi
    }

    fn kept(self, lo: u8, hi: u8) -> u8 {
        if self.is_within(lo, hi) { self } else { 0 }
    }

    fn at_least_word(block: &[u8], v: u8) -> u64 {
        let lanes = u8x64::from_slice(block);
        lanes.simd_ge(u8x64::splat(v)).to_bitmask()
    }

    fn within_word(block: &[u8], lo: u8, hi: u8) -> u64 {
        let lanes = u8x64::from_slice(block);
        let low = lanes.simd_ge(u8x64::splat(lo));
        let high = lanes.simd_le(u8x64::splat(hi));
        (low & high).to_bitmask()
    }
}

impl Lane for u16 {
    ghost whole = { λ x. pos x };

    ghost own = { λ _. true };

    fn show(self) {}

    fn is_at_least(self, v: u16) -> bool {
        self >= v
    }

    fn is_within(self, lo: u16, hi: u16) -> bool {
        lo <= self && self <= hi
    }

    fn kept(self, lo: u16, hi: u16) -> u16 {
        if self.is_within(lo, hi) { self } else { 0 }
    }

    fn at_least_word(block: &[u16], v: u16) -> u64 {
        let lanes = u16x64::from_slice(block);
        lanes.simd_ge(u16x64::splat(v)).to_bitmask()
    }

    fn within_word(block: &[u16], lo: u16, hi: u16) -> u64 {
        let lanes = u16x64::from_slice(block);
        let low = lanes.simd_ge(u16x64::splat(lo));
        let high = lanes.simd_le(u16x64::splat(hi));
        (low & high).to_bitmask()
    }
}

impl Lane for u32 {
    ghost whole = { λ x. pos x };

    ghost own = { λ _. true };

    fn show(self) {}

    fn is_at_least(self, v: u32) -> bool {
        self >= v
    }

    fn is_within(self, lo: u32, hi: u32) -> bool {
        lo <= self && self <= hi
    }

    fn kept(self, lo: u32, hi: u32) -> u32 {
        if self.is_within(lo, hi) { self } else { 0 }
    }

    fn at_least_word(block: &[u32], v: u32) -> u64 {
        let lanes = u32x64::from_slice(block);
        lanes.simd_ge(u32x64::splat(v)).to_bitmask()
    }

    fn within_word(block: &[u32], lo: u32, hi: u32) -> u64 {
        let lanes = u32x64::from_slice(block);
        let low = lanes.simd_ge(u32x64::splat(lo));
        let high = lanes.simd_le(u32x64::splat(hi));
        (low & high).to_bitmask()
    }
}

impl Lane for u64 {
    ghost whole = { λ x. pos x };

    ghost own = { λ _. true };

    fn show(self) {}

    fn is_at_least(self, v: u64) -> bool {
        self >= v
    }

    fn is_within(self, lo: u64, hi: u64) -> bool {
        lo <= self && self <= hi
    }

    fn kept(self, lo: u64, hi: u64) -> u64 {
        if self.is_within(lo, hi) { self } else { 0 }
    }

    fn at_least_word(block: &[u64], v: u64) -> u64 {
        let lanes = u64x64::from_slice(block);
        lanes.simd_ge(u64x64::splat(v)).to_bitmask()
    }

    fn within_word(block: &[u64], lo: u64, hi: u64) -> u64 {
        let lanes = u64x64::from_slice(block);
        let low = lanes.simd_ge(u64x64::splat(lo));
        let high = lanes.simd_le(u64x64::splat(hi));
        (low & high).to_bitmask()
    }
}
