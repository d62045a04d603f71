// What each gate holds, from exact numbers, put into a model's bytes: 0 or 1, a byte a gate, in order of making.
#![tactic(auto)]

ghost use Rattle.std.specs.Prelude.{◌≡◌, true, false, not, ◌&&◌, [], ◌∷◌, ◌++◌, ◌≤◌, pos, ◌*ℤ◌};
ghost use Rattle.whole.specs.Bits.{Fits, odd, half, bits_of};
ghost use Rattle.circuit.specs.Gates.{xor_of, mux_of, maj_of};
ghost use Rattle.circuit.specs.Counting.{expanded_width};
ghost use Rattle.trace.specs.Traces.{adding, row_of, adding_rows, multiplying, expanding, exceeding, equalling};
ghost use Rattle.extend.specs.Bytes.{Room, Put};
ghost use Rattle.extend.specs.Places.{sum_place, order_place, match_place};

// A model's bytes, of which those before the place `at` are put.
#[derive(Drop)]
pub struct PartialModel<'a> {
    pub bytes: &'a mut [u8],
    pub at: usize,
}

// A number expanded: its numerator and its width.
#[derive(Clone, Copy)]
pub struct Expanded {
    pub numerator: i64,
    pub width: u32,
}

// The lowest bit.
fn odd(v: i64) -> bool
    ensures { result ≡ odd v }
{
    v & 1 == 1
}

// What is above the lowest bit.
fn half(v: i64) -> i64
    ensures { result ≡ half v }
{
    v >> 1
}

// Whether two of three hold.
fn majority(a: bool, b: bool, c: bool) -> bool
    ensures { result ≡ maj_of a b c }
{
    if a == b { a } else { c }
}

// x where the lowest bit of y is 1.
fn masked(x: i64, y: i64) -> i64
    ensures { result ≡ row_of x y }
{
    if odd(y) { x } else { 0 }
}

impl PartialModel<'_> {
    // One bit.
    pub fn put(&mut self, v: bool)
        requires { Room (v ∷ []) self.old }
        ensures { Put (v ∷ []) self.old self.new }
    {
        self.bytes[self.at] = u8::from(v);
        self.at += 1;
    }

    // The lowest w bits of v.
    pub fn put_bits(&mut self, w: u32, mut v: i64)
        requires { Room (bits_of w v) self.old }
        ensures { Put (bits_of w v) self.old self.new }
    {
        for _ in 0..w {
            self.put(odd(v));
            v = half(v);
        }
    }

    // One place of a sum; the answer is its carry.
    #[tactic(auto, using(crate::proofs::Putting::put_three, crate::proofs::Putting::differ_is))]
    fn put_sum(&mut self, a: bool, b: bool, carry: bool) -> bool
        requires { Room (sum_place a b carry) self.old }
        ensures bits { Put (sum_place a b carry) self.old self.new }
        ensures carry { result ≡ maj_of a b carry }
    {
        let carried = majority(a, b, carry);
        self.put(a != b);
        self.put((a != b) != carry);
        self.put(carried);
        carried
    }

    // The sum of x, y and the carry in w places.
    pub fn add(&mut self, w: u32, mut x: i64, mut y: i64, mut carry: bool)
        requires { Room (adding carry w x y) self.old }
        ensures { Put (adding carry w x y) self.old self.new }
    {
        for _ in 0..w {
            carry = self.put_sum(odd(x), odd(y), carry);
            x = half(x);
            y = half(y);
        }
    }

    // The rows of y's further bits, w places each and one fewer with every row, added to the total.
    fn add_rows(&mut self, w: u32, x: i64, mut y: i64, mut total: i64)
        requires fits_x { Fits 48 x }
        requires fits_total { Fits 49 total }
        requires room { Room (adding_rows w x y total) self.old }
        ensures { Put (adding_rows w x y total) self.old self.new }
    {
        for left in (1..=w).rev() {
            let row = masked(x, y);
            let above = half(total);
            self.put_bits(left, row);
            self.add(left, above, row, false);
            total = above + row;
            y = half(y);
        }
    }

    // The product of x and y in w places.
    pub fn multiply(&mut self, w: u32, x: i64, y: i64)
        requires w_least { 1 ≤ w }
        requires fits_x { Fits 48 x }
        requires room { Room (multiplying w x y) self.old }
        ensures { Put (multiplying w x y) self.old self.new }
    {
        let first = masked(x, y);
        self.put_bits(w, first);
        self.add_rows(w - 1, x, half(y), first);
    }

    // A number of so many bits multiplied by a factor, unless that is 1.
    #[tactic(auto, using(crate::proofs::Putting::put_none), unfolding(circuit::specs::Counting::expanded_width))]
    pub fn expand(&mut self, width: u32, factor: u32, numerator: i64) -> Expanded
        requires width_most { width ≤ 48 }
        requires fits_numerator { Fits 48 numerator }
        requires fits { Fits 48 (numerator *ℤ pos factor) }
        requires room { Room (expanding width factor numerator) self.old }
        ensures bits { Put (expanding width factor numerator) self.old self.new }
        ensures numerator_is { result.numerator ≡ numerator *ℤ pos factor }
        ensures width_is { result.width ≡ expanded_width width factor }
    {
        if factor == 1 {
            return Expanded { numerator, width };
        }
        let factor = i64::from(factor);
        let width = width + numbers::bits(factor);
        self.multiply(width, numerator, factor);
        Expanded {
            numerator: numerator * factor,
            width,
        }
    }

    // One place of greater: where a and b differ, p decides; the answer is the greater so far.
    #[tactic(auto, using(crate::proofs::Putting::put_two, crate::proofs::Putting::differ_is))]
    fn put_order(&mut self, a: bool, b: bool, p: bool, g: bool) -> bool
        requires { Room (order_place a b p g) self.old }
        ensures bits { Put (order_place a b p g) self.old self.new }
        ensures above { result ≡ mux_of (xor_of a b) p g }
    {
        let above = if a != b { p } else { g };
        self.put(a != b);
        self.put(above);
        above
    }

    // Whether x is above y, in w places. At the sign, the last place, y's bit stands in x's place.
    pub fn greater(&mut self, w: u32, mut x: i64, mut y: i64)
        requires { Room (exceeding false w x y) self.old }
        ensures { Put (exceeding false w x y) self.old self.new }
    {
        let mut above = false;
        for left in (0..w).rev() {
            let (a, b) = (odd(x), odd(y));
            let p = if left == 0 { b } else { a };
            above = self.put_order(a, b, p, above);
            x = half(x);
            y = half(y);
        }
    }

    // One place of equal; the answer is the equal so far.
    #[tactic(auto, using(crate::proofs::Putting::put_two, crate::proofs::Putting::differ_is))]
    fn put_match(&mut self, a: bool, b: bool, e: bool) -> bool
        requires { Room (match_place a b e) self.old }
        ensures bits { Put (match_place a b e) self.old self.new }
        ensures same { result ≡ (e && not (xor_of a b)) }
    {
        let same = e && a == b;
        self.put(a != b);
        self.put(same);
        same
    }

    // Whether x is equal to y, in w places.
    pub fn equal(&mut self, w: u32, mut x: i64, mut y: i64)
        requires { Room (equalling true w x y) self.old }
        ensures { Put (equalling true w x y) self.old self.new }
    {
        let mut same = true;
        for _ in 0..w {
            same = self.put_match(odd(x), odd(y), same);
            x = half(x);
            y = half(y);
        }
    }
}
