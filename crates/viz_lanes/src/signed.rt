//! The four types with a sign.

ghost use Rattle.std.specs.Prelude.{true};
ghost use Rattle.viz_lanes.specs.Lanes.{is_signed};

use crate::lane::Lane;
use std::simd::prelude::*;

impl Lane for i8 {
    ghost whole = { λ x. x };

    ghost own = { λ x. is_signed 7 x };

    fn show(self) {}

    fn is_at_least(self, v: i8) -> bool {
        self >= v
    }

    fn is_within(self, lo: i8, hi: i8) -> bool {
        lo <= self && self <= hi
    }

    fn kept(self, lo: i8, hi: i8) -> i8 {
        if self.is_within(lo, hi) { self } else { 0 }
    }

    fn at_least_word(block: &[i8], v: i8) -> u64 {
        let lanes = i8x64::from_slice(block);
        lanes.simd_ge(i8x64::splat(v)).to_bitmask()
    }

    fn within_word(block: &[i8], lo: i8, hi: i8) -> u64 {
        let lanes = i8x64::from_slice(block);
        let low = lanes.simd_ge(i8x64::splat(lo));
        let high = lanes.simd_le(i8x64::splat(hi));
        (low & high).to_bitmask()
    }
}

impl Lane for i16 {
    ghost whole = { λ x. x };

    ghost own = { λ x. is_signed 15 x };

    fn show(self) {}

    fn is_at_least(self, v: i16) -> bool {
        self >= v
    }

    fn is_within(self, lo: i16, hi: i16) -> bool {
        lo <= self && self <= hi
    }

    fn kept(self, lo: i16, hi: i16) -> i16 {
        if self.is_within(lo, hi) { self } else { 0 }
    }

    fn at_least_word(block: &[i16], v: i16) -> u64 {
        let lanes = i16x64::from_slice(block);
        lanes.simd_ge(i16x64::splat(v)).to_bitmask()
    }

    fn within_word(block: &[i16], lo: i16, hi: i16) -> u64 {
        let lanes = i16x64::from_slice(block);
        let low = lanes.simd_ge(i16x64::splat(lo));
        let high = lanes.simd_le(i16x64::splat(hi));
        (low & high).to_bitmask()
    }
}

impl Lane for i32 {
    ghost whole = { λ x. x };

    ghost own = { λ x. is_signed 31 x };

    fn show(self) {}

    fn is_at_least(self, v: i32) -> bool {
        self >= v
    }

    fn is_within(self, lo: i32, hi: i32) -> bool {
        lo <= self && self <= hi
    }

    fn kept(self, lo: i32, hi: i32) -> i32 {
        if self.is_within(lo, hi) { self } else { 0 }
    }

    fn at_least_word(block: &[i32], v: i32) -> u64 {
        let lanes = i32x64::from_slice(block);
        lanes.simd_ge(i32x64::splat(v)).to_bitmask()
    }

    fn within_word(block: &[i32], lo: i32, hi: i32) -> u64 {
        let lanes = i32x64::from_slice(block);
        let low = lanes.simd_ge(i32x64::splat(lo));
        let high = lanes.simd_le(i32x64::splat(hi));
        (low & high).to_bitmask()
    }
}

impl Lane for i64 {
    ghost whole = { λ x. x };

    ghost own = { λ x. is_signed 63 x };

    fn show(self) {}

    fn is_at_least(self, v: i64) -> bool {
        self >= v
    }

    fn is_within(self, lo: i64, hi: i64) -> bool {
        lo <= self && self <= hi
    }

    fn kept(self, lo: i64, hi: i64) -> i64 {
        if self.is_within(lo, hi) { self } else { 0 }
    }

    fn at_least_word(block: &[i64], v: i64) -> u64 {
        let lanes = i64x64::from_slice(block);
        lanes.simd_ge(i64x64::splat(v)).to_bitmask()
    }

    fn within_word(block: &[i64], lo: i64, hi: i64) -> u64 {
        let lanes = i64x64::from_slice(block);
        let low = lanes.simd_ge(i64x64::splat(lo));
        let high = lanes.simd_le(i64x64::splat(hi));
        (low & high).to_bitmask()
    }
}
