//! Elements as two halves.

ghost use Rattle.std.specs.Prelude.{◌≡◌, ℕ, ◌+◌, ◌*◌, ◌/◌, ◌%◌, ◌^◌, ◌<◌};
ghost use Rattle.tower_laws.specs.Tower.{low, high, join};

#[inline(always)]
pub fn low2(a: u8) -> u8
    ensures { result ≡ low 0 a }
{
    a & 0b1
}

#[inline(always)]
pub fn high2(a: u8) -> u8
    requires { a < 4 }
    ensures { result ≡ high 0 a }
{
    a >> 1
}

#[inline(always)]
pub fn joined2(high: u8, low: u8) -> u8
    requires high_fits { high < 2 }
    requires low_fits { low < 2 }
    ensures { result ≡ join 0 high low }
{
    high << 1 | low
}

#[inline(always)]
pub fn low4(a: u8) -> u8
    ensures { result ≡ low 1 a }
{
    a & 0b11
}

#[inline(always)]
pub fn high4(a: u8) -> u8
    requires { a < 16 }
    ensures { result ≡ high 1 a }
{
    a >> 2
}

#[inline(always)]
pub fn joined4(high: u8, low: u8) -> u8
    requires high_fits { high < 4 }
    requires low_fits { low < 4 }
    ensures { result ≡ join 1 high low }
{
    high << 2 | low
}

#[inline(always)]
pub fn low8(a: u8) -> u8
    ensures { result ≡ low 2 a }
{
    a & 0xf
}

#[inline(always)]
pub fn high8(a: u8) -> u8
    ensures { result ≡ high 2 a }
{
    a >> 4
}

#[inline(always)]
pub fn joined8(high: u8, low: u8) -> u8
    requires high_fits { high < 16 }
    requires low_fits { low < 16 }
    ensures { result ≡ join 2 high low }
{
    high << 4 | low
}

#[inline(always)]
pub fn low16(a: u16) -> u8
    ensures { result ≡ low 3 a }
{
    (a & 0xff) as u8
}

#[inline(always)]
pub fn high16(a: u16) -> u8
    ensures { result ≡ high 3 a }
{
    (a >> 8) as u8
}

#[inline(always)]
pub fn joined16(high: u8, low: u8) -> u16
    ensures { result ≡ join 3 high low }
{
    (high as u16) << 8 | low as u16
}

#[inline(always)]
pub fn low32(a: u32) -> u16
    ensures { result ≡ low 4 a }
{
    (a & 0xffff) as u16
}

#[inline(always)]
pub fn high32(a: u32) -> u16
    ensures { result ≡ high 4 a }
{
    (a >> 16) as u16
}

#[inline(always)]
pub fn joined32(high: u16, low: u16) -> u32
    ensures { result ≡ join 4 high low }
{
    (high as u32) << 16 | low as u32
}

#[inline(always)]
pub fn low64(a: u64) -> u32
    ensures { result ≡ low 5 a }
{
    (a & 0xffff_ffff) as u32
}

#[inline(always)]
pub fn high64(a: u64) -> u32
    ensures { result ≡ high 5 a }
{
    (a >> 32) as u32
}

#[inline(always)]
pub fn joined64(high: u32, low: u32) -> u64
    ensures { result ≡ join 5 high low }
{
    (high as u64) << 32 | low as u64
}

#[inline(always)]
pub fn low128(a: u128) -> u64
    ensures { result ≡ low 6 a }
{
    (a & 0xffff_ffff_ffff_ffff) as u64
}

#[inline(always)]
pub fn high128(a: u128) -> u64
    ensures { result ≡ high 6 a }
{
    (a >> 64) as u64
}

#[inline(always)]
pub fn joined128(high: u64, low: u64) -> u128
    ensures { result ≡ join 6 high low }
{
    (high as u128) << 64 | low as u128
}
