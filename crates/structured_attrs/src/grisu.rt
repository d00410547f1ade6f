//! The digits that Nix writes of a double: those of Grisu2 (Loitsch, "Printing Floating-Point
//! Numbers Quickly and Accurately with Integers", 2010), as JSON for Modern C++ has it.

use crate::decimal::Point;
use itoa::Buffer;
use std::alloc::{AllocError, Global};

// The bits of a double's fraction.
const FRACTION: u64 = (1 << 52) - 1;

// The powers of ten from 10^-300 in steps of 8: each a number with its highest bit set, and the
// power of two that it is multiplied by.
const POWERS: [(u64, i32); 79] = [
    (0xab70fe17c79ac6ca, -1060),
    (0xff77b1fcbebcdc4f, -1034),
    (0xbe5691ef416bd60c, -1007),
    (0x8dd01fad907ffc3c, -980),
    (0xd3515c2831559a83, -954),
    (0x9d71ac8fada6c9b5, -927),
    (0xea9c227723ee8bcb, -901),
    (0xaecc49914078536d, -874),
    (0x823c12795db6ce57, -847),
    (0xc21094364dfb5637, -821),
    (0x9096ea6f3848984f, -794),
    (0xd77485cb25823ac7, -768),
    (0xa086cfcd97bf97f4, -741),
    (0xef340a98172aace5, -715),
    (0xb23867fb2a35b28e, -688),
    (0x84c8d4dfd2c63f3b, -661),
    (0xc5dd44271ad3cdba, -635),
    (0x936b9fcebb25c996, -608),
    (0xdbac6c247d62a584, -582),
    (0xa3ab66580d5fdaf6, -555),
    (0xf3e2f893dec3f126, -529),
    (0xb5b5ada8aaff80b8, -502),
    (0x87625f056c7c4a8b, -475),
    (0xc9bcff6034c13053, -449),
    (0x964e858c91ba2655, -422),
    (0xdff9772470297ebd, -396),
    (0xa6dfbd9fb8e5b88f, -369),
    (0xf8a95fcf88747d94, -343),
    (0xb94470938fa89bcf, -316),
    (0x8a08f0f8bf0f156b, -289),
    (0xcdb02555653131b6, -263),
    (0x993fe2c6d07b7fac, -236),
    (0xe45c10c42a2b3b06, -210),
    (0xaa242499697392d3, -183),
    (0xfd87b5f28300ca0e, -157),
    (0xbce5086492111aeb, -130),
    (0x8cbccc096f5088cc, -103),
    (0xd1b71758e219652c, -77),
    (0x9c40000000000000, -50),
    (0xe8d4a51000000000, -24),
    (0xad78ebc5ac620000, 3),
    (0x813f3978f8940984, 30),
    (0xc097ce7bc90715b3, 56),
    (0x8f7e32ce7bea5c70, 83),
    (0xd5d238a4abe98068, 109),
    (0x9f4f2726179a2245, 136),
    (0xed63a231d4c4fb27, 162),
    (0xb0de65388cc8ada8, 189),
    (0x83c7088e1aab65db, 216),
    (0xc45d1df942711d9a, 242),
    (0x924d692ca61be758, 269),
    (0xda01ee641a708dea, 295),
    (0xa26da3999aef774a, 322),
    (0xf209787bb47d6b85, 348),
    (0xb454e4a179dd1877, 375),
    (0x865b86925b9bc5c2, 402),
    (0xc83553c5c8965d3d, 428),
    (0x952ab45cfa97a0b3, 455),
    (0xde469fbd99a05fe3, 481),
    (0xa59bc234db398c25, 508),
    (0xf6c69a72a3989f5c, 534),
    (0xb7dcbf5354e9bece, 561),
    (0x88fcf317f22241e2, 588),
    (0xcc20ce9bd35c78a5, 614),
    (0x98165af37b2153df, 641),
    (0xe2a0b5dc971f303a, 667),
    (0xa8d9d1535ce3b396, 694),
    (0xfb9b7cd9a4a7443c, 720),
    (0xbb764c4ca7a44410, 747),
    (0x8bab8eefb6409c1a, 774),
    (0xd01fef10a657842c, 800),
    (0x9b10a4e5e9913129, 827),
    (0xe7109bfba19c0c9d, 853),
    (0xac2820d9623bf429, 880),
    (0x80444b5e7aa7cf85, 907),
    (0xbf21e44003acdd2d, 933),
    (0x8e679c2f5e44ff8f, 960),
    (0xd433179d9c8cb841, 986),
    (0x9e19db92b4e31ba9, 1013),
];

// The powers of ten that 32 bits have.
const TENS: [u64; 10] = [
    1,
    10,
    100,
    1_000,
    10_000,
    100_000,
    1_000_000,
    10_000_000,
    100_000_000,
    1_000_000_000,
];

// So many times a power of two.
#[derive(Clone, Copy, Debug)]
struct Scaled {
    count: u64,
    power: i32,
}

impl Scaled {
    // The number by a power that is so much less.
    fn lowered(self, by: u32) -> Scaled {
        Scaled {
            count: self.count.wrapping_shl(by),
            power: self.power.wrapping_sub(by.cast_signed()),
        }
    }

    // The number with the highest bit set.
    fn normal(self) -> Scaled {
        self.lowered(self.count.leading_zeros())
    }

    // The product with the highest 64 bits, rounded.
    fn times(self, other: Scaled) -> Scaled {
        let product = (self.count as u128).wrapping_mul(other.count as u128);
        Scaled {
            count: (product.wrapping_add(1 << 63) >> 64) as u64,
            power: self.power.wrapping_add(other.power).wrapping_add(64),
        }
    }
}

// A positive double, and the limits of what is read as it.
#[derive(Clone, Copy, Debug)]
struct Range {
    lower: Scaled,
    value: Scaled,
    upper: Scaled,
}

impl Range {
    // Those of a double, by its bits.
    fn of(bits: u64) -> Range {
        let fraction = bits & FRACTION;
        let exponent = (bits >> 52 & 0x7ff) as i32;
        let value = if exponent == 0 {
            Scaled {
                count: fraction,
                power: -1074,
            }
        } else {
            Scaled {
                count: fraction | 1 << 52,
                power: exponent - 1075,
            }
        };
        let half = value.lowered(1);
        let upper = Scaled {
            count: half.count.wrapping_add(1),
            ..half
        }
        .normal();
        // Below a power of two doubles stand half as far apart.
        let below = if fraction == 0 && 1 < exponent {
            half.lowered(1)
        } else {
            half
        };
        let lower = Scaled {
            count: below.count.wrapping_sub(1),
            ..below
        };
        Range {
            lower: lower.lowered(lower.power.wrapping_sub(upper.power).cast_unsigned()),
            value: value.normal(),
            upper,
        }
    }

    // The range times a power of ten.
    fn times(self, ten: Scaled) -> Range {
        Range {
            lower: self.lower.times(ten),
            value: self.value.times(ten),
            upper: self.upper.times(ten),
        }
    }
}

// Digits that are being found below an upper limit: how far they may lie below it, and how far the
// double does.
#[derive(Debug, Drop)]
struct Search {
    digits: Vec<u8>,
    farthest: u64,
    distance: u64,
}

impl Search {
    // Makes the digits less as long as they come nearer to the double. They lie `rest` below the
    // limit, and `step` is 1 at the last digit.
    fn round(&mut self, rest: u64, step: u64) {
        let mut rest = rest;
        for _ in 0..10 {
            let next = rest.wrapping_add(step);
            let within = rest < self.distance && step <= self.farthest.wrapping_sub(rest);
            let nearer = next < self.distance
                || next.wrapping_sub(self.distance) < self.distance.wrapping_sub(rest);
            if !within || !nearer {
                return;
            }
            if let Some(last) = self.digits.last_mut() {
                *last = last.wrapping_sub(1);
            }
            rest = next;
        }
    }

    // Finds digits before the point of the limit, and says how many are left when that is enough.
    fn find_whole(&mut self, limit: u64, shift: u32) -> Result<Option<usize>, AllocError> {
        let mut buffer = Buffer::new();
        let whole = buffer.format(limit.wrapping_shr(shift)).as_bytes();
        let mut rest = limit;
        for (n, digit) in whole.iter().enumerate() {
            let left = whole.len() - 1 - n;
            let step = TENS.get(left).copied().unwrap_or(0).wrapping_shl(shift);
            self.digits.push(*digit)?;
            rest = rest.wrapping_sub(step.wrapping_mul(digit.wrapping_sub(b'0') as u64));
            if rest <= self.farthest {
                self.round(rest, step);
                return Ok(Some(left));
            }
        }
        Ok(None)
    }

    // Finds digits after the point of the limit until they are enough, and says how many.
    fn find_fraction(&mut self, limit: u64, shift: u32) -> Result<usize, AllocError> {
        let one = 1u64.wrapping_shl(shift);
        let mut rest = limit & one.wrapping_sub(1);
        for n in 1..20 {
            rest = rest.wrapping_mul(10);
            self.digits
                .push(b'0'.wrapping_add((rest.wrapping_shr(shift) & 15) as u8))?;
            rest &= one.wrapping_sub(1);
            self.farthest = self.farthest.wrapping_mul(10);
            self.distance = self.distance.wrapping_mul(10);
            if rest <= self.farthest {
                self.round(rest, one);
                return Ok(n);
            }
        }
        Ok(20)
    }
}

// The digits of a positive double, by its bits, and the point among them: mostly the fewest that
// are read as the double, and then the nearest ones.
pub(crate) fn digits_of(alloc: Global, bits: u64) -> Result<(Vec<u8>, Point), AllocError> {
    let range = Range::of(bits);
    let index = index_of(range.upper.power);
    let (count, power) = POWERS.get(index).copied().unwrap_or((0, 0));
    let range = range.times(Scaled { count, power });
    let limit = range.upper.count.wrapping_sub(1);
    let mut search = Search {
        digits: Vec::new(alloc),
        farthest: limit.wrapping_sub(range.lower.count.wrapping_add(1)),
        distance: limit.wrapping_sub(range.value.count),
    };
    let shift = range.upper.power.wrapping_neg().cast_unsigned();
    let after = match search.find_whole(limit, shift)? {
        Some(left) => small(left),
        None => small(search.find_fraction(limit, shift)?).wrapping_neg(),
    };
    let ten = 300i32.wrapping_sub(small(index).wrapping_mul(8));
    let length = small(search.digits.len());
    let point = point_of(ten.wrapping_add(after).wrapping_add(length));
    Ok((search.digits, point))
}

// The index of the power of ten by which a number with this power of two gets one from -60 to -32.
fn index_of(power: i32) -> usize {
    let wanted = (-61i32).wrapping_sub(power);
    let ten = wanted.wrapping_mul(78_913) / (1 << 18) + i32::from(0 < wanted);
    ten.wrapping_add(307).clamp(0, 639) as usize / 8
}

// The point after so many digits, or before so many zeros.
fn point_of(after: i32) -> Point {
    if 0 < after {
        Point::After(after.unsigned_abs())
    } else {
        Point::Before(after.unsigned_abs())
    }
}

// A small number with a sign.
fn small(n: usize) -> i32 {
    i32::try_from(n).unwrap_or(i32::MAX)
}
