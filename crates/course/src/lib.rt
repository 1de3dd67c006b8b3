// The course of a vector, in natural numbers: its two axes, which of its pixels are in the field, and the mark that the walk carries from pixel to
// pixel. Coordinates are counted from the lowest one, -2,048, so that the field is from 2,048 to 2,559 on each axis. docs/VECTORS.md explains it.
#![tactic(auto)]

ghost use Rattle.std.specs.Prelude.{◌≡◌, ◌+◌, ◌<◌, ◌≤◌, true};
ghost use Rattle.course.specs.Course.{axis_of, along, course_of, visible, part, mark, paces_of, stepped, Sound, Arrives, Spans};

// One axis of a vector.
// from: where it starts, counted from the side that it comes from, so that the field is from 2,048 to 2,559 up and down
// size: how many steps it makes
// down: 1 where they go down, else 0
// weight: what a step is in a pixel's number, 1 or 512
// stride: that, up or down, as it is added modulo 2^64
#[derive(Clone, Copy)]
pub struct Axis {
    pub from: u32,
    pub size: u32,
    pub down: u32,
    pub weight: usize,
    pub stride: usize,
}

// That a length is not 0 and a coordinate below 4,096 is asked for, and is in no type: one would be built for every function that asks, and opened there.
// The longer axis makes a step at every pixel, the shorter one now and then.
// half: what is carried at the start
// place: the number of the start
#[derive(Clone, Copy)]
pub struct Course {
    pub long: Axis,
    pub short: Axis,
    pub half: u32,
    pub place: usize,
}

// A course that lies between coordinates below 4,096, as `course_of` makes it.
#[derive(Clone, Copy)]
pub struct SoundCourse {
    pub course: Course,
    pub ghost sound: { Sound course },
}

// The pixels from the first one on and before the end.
#[derive(Clone, Copy)]
pub struct Span {
    pub first: u32,
    pub end: u32,
}

// What a step adds to a mark: below the limit the longer axis goes on alone, else both do.
#[derive(Clone, Copy)]
pub struct Paces {
    pub limit: usize,
    pub one: usize,
    pub both: usize,
}

// In a mark, what is carried has the upper 32 bits, and the pixel's number the lower.
pub const ABOVE: usize = 4294967296;

// The number of the lowest pixel of the field, (2,048, 2,048).
const LOWEST: usize = 1050624;

// ---- the two axes

#[tactic(auto, unfolding(crate::specs::Course::axis_of))]
fn axis_of(start: u32, end: u32, weight: usize) -> Axis
    requires { (start < 4096) × (0 < weight) }
    ensures { result ≡ axis_of weight start end }
{
    if start <= end {
        Axis {
            from: start,
            size: end - start,
            down: 0,
            weight,
            stride: weight,
        }
    } else {
        Axis {
            from: 4607 - start,
            size: start - end,
            down: 1,
            weight,
            stride: weight.wrapping_neg(),
        }
    }
}

// u32 to usize, which has no From.
fn wide(n: u32) -> usize
    ensures { result ≡ n }
{
    n as usize
}

// What is carried at the start is one less where the shorter axis goes down.
fn along(long: Axis, short: Axis, place: usize) -> Course
    requires { short.down ≤ long.size }
    ensures { result ≡ along place long short }
{
    Course {
        long,
        short,
        half: long.size - short.down,
        place,
    }
}

// From (x, y) to (x1, y1).
fn between(x: u32, y: u32, x1: u32, y1: u32) -> Course
    requires { (x < 4096) × (y < 4096) }
    ensures { result ≡ course_of x y x1 y1 }
{
    let across = axis_of(x, x1, 1);
    let upright = axis_of(y, y1, 512);
    let place = 512 * wide(y) + wide(x);
    if upright.size <= across.size {
        along(across, upright, place)
    } else {
        along(upright, across, place)
    }
}

pub fn course_of(x: u32, y: u32, x1: u32, y1: u32) -> SoundCourse
    requires { (x < 4096) × (y < 4096) × (x1 < 4096) × (y1 < 4096) }
    ensures { result.course ≡ course_of x y x1 y1 }
{
    SoundCourse {
        course: between(x, y, x1, y1),
    }
}

// ---- which pixels are in the field

// The first pixel at which the shorter axis has made k steps, or n + 1. A number and no Option: of both calls the smaller or the larger is taken.
#[tactic(auto, using(crate::proofs::GoneLaws::product_fits))]
fn arrives(n: u32, m: u32, half: u32, k: u32) -> u32
    requires { (0 < n) × (n < 4096) × (m ≤ n) × (half ≤ n) }
    ensures { Arrives n m half k result }
{
    if k == 0 {
        return 0;
    }
    if m < k {
        return n + 1;
    }
    (2 * (n * k) - half + 2 * m - 1) / (2 * m)
}

// Each axis is in the field from so many steps on, and before so many.
pub fn span_of(c: SoundCourse) -> Span
    requires { 0 < c.course.long.size }
    ensures { Spans c.course result.first result.end }
{
    let c = c.course;
    let n = c.long.size;
    let m = c.short.size;
    let first = arrives(n, m, c.half, 2048_u32.saturating_sub(c.short.from));
    let end = arrives(n, m, c.half, 2560_u32.saturating_sub(c.short.from));
    Span {
        first: 2048_u32.saturating_sub(c.long.from).max(first),
        end: 2560_u32.saturating_sub(c.long.from).min(end),
    }
}

// ---- the mark

// What an axis adds to the number of a pixel of the field, k steps on.
#[tactic(auto, unfolding(crate::specs::Course::part))]
fn part(x: Axis, k: u32) -> usize
    requires { (x.weight ≤ 512) × (2048 ≤ x.from + k) × (x.from + k < 2560) }
    ensures { result ≡ part x k }
{
    let inside = if x.down == 0 {
        x.from + k - 2048
    } else {
        2559 - (x.from + k)
    };
    wide(inside) * x.weight
}

// The mark of pixel i: what is carried there, above the pixel's number.
#[tactic(auto, using(crate::proofs::GoneLaws::top_fits))]
pub fn mark(c: SoundCourse, i: u32) -> usize
    requires { (0 < c.course.long.size) × (i ≤ c.course.long.size) × (visible c.course i ≡ true) }
    ensures { result ≡ mark c.course i }
{
    let c = c.course;
    if i == 0 {
        return wide(c.half) * ABOVE + (c.place - LOWEST);
    }
    let top = 2 * (i * c.short.size) + c.half;
    let full = 2 * c.long.size;
    let steps = top / full;
    let carried = top % full;
    wide(carried) * ABOVE + (part(c.long, i) + part(c.short, steps))
}

pub fn paces_of(c: SoundCourse) -> Paces
    ensures { result ≡ paces_of c.course }
{
    let c = c.course;
    let more = wide(2 * c.short.size) * ABOVE;
    let limit = wide(2 * c.long.size - 2 * c.short.size) * ABOVE;
    let both = c.long.stride.wrapping_add(c.short.stride);
    Paces {
        limit,
        one: more.wrapping_add(c.long.stride),
        both: both.wrapping_sub(limit),
    }
}

// From a pixel's mark to the next one's.
#[tactic(auto, unfolding(crate::specs::Course::stepped))]
pub fn step(at: usize, p: Paces) -> usize
    ensures { result ≡ stepped p at }
{
    if at < p.limit {
        at.wrapping_add(p.one)
    } else {
        at.wrapping_add(p.both)
    }
}
