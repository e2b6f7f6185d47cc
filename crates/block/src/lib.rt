// A block of 512 bytes: its little-endian fields and its check. Definitions in specs/, laws in proofs/.
#![tactic(auto)]

ghost use Rattle.std.specs.Prelude.{◌≡◌, ◌+◌, ◌-◌, ◌*◌, ◌≤◌, length, take, replicate, eqb};
ghost use Rattle.numbers.specs.Words.{all?, same_list};
ghost use Rattle.block.specs.Fields.{le, cut, splice, field};
ghost use Rattle.block.specs.Check.{sums, seal, sealed};
ghost use Rattle.block.specs.Kind.{kind_number, heading};

// "Byte 0 kind": what a block is.
#[derive(Clone, Copy, Debug, PartialEq, Eq)]
pub enum Kind {
    // 1: an image's head
    Head,
    // 2: a list of dots
    Dots,
    // 3: a point, stored or sent with a reply
    Point,
    // 4: the message of a write or a delete
    Outgoing,
    // 5: an ask
    Ask,
    // 6: a reply's head
    ReplyHead,
    // 7: a reading
    Reading,
}

// The kind as it stands in a block.
impl From<Kind> for u8 {
    ghost from_gives = { λ k n. n ≡ kind_number k };

    fn from(k: Kind) -> u8 {
        match k {
            Kind::Head => 1,
            Kind::Dots => 2,
            Kind::Point => 3,
            Kind::Outgoing => 4,
            Kind::Ask => 5,
            Kind::ReplyHead => 6,
            Kind::Reading => 7,
        }
    }
}

// "s1 is the sum modulo 65535, s2 the sum of the running s1 values modulo 65535"
#[derive(Clone, Copy)]
pub struct Sums {
    pub s1: u32,
    pub s2: u32,
}

// A field is read as two halves, the lower one first: one law serves every width, and the compiler makes one load of them.
pub fn u8_at(b: &[u8], at: usize) -> u8
    requires { at + 1 ≤ length b.now }
    ensures { result ≡ field b.now at 1 }
{
    b[at]
}

pub fn u16_at(b: &[u8], at: usize) -> u16
    requires { at + 2 ≤ length b.now }
    ensures { result ≡ field b.now at 2 }
{
    u8_at(b, at) as u16 + 256 * (u8_at(b, at + 1) as u16)
}

pub fn u32_at(b: &[u8], at: usize) -> u32
    requires { at + 4 ≤ length b.now }
    ensures { result ≡ field b.now at 4 }
{
    u16_at(b, at) as u32 + 65536 * (u16_at(b, at + 2) as u32)
}

pub fn u64_at(b: &[u8], at: usize) -> u64
    requires { at + 8 ≤ length b.now }
    ensures { result ≡ field b.now at 8 }
{
    u32_at(b, at) as u64 + 4294967296 * (u32_at(b, at + 4) as u64)
}

// A field is written as two halves too, which become one store.
pub fn put_u8(b: &mut [u8], at: usize, v: u8)
    requires { at + 1 ≤ length b.old }
    ensures { b.new ≡ splice b.old at 1 (le 1 v) }
{
    b[at] = v;
}

pub fn put_u16(b: &mut [u8], at: usize, v: u16)
    requires { at + 2 ≤ length b.old }
    ensures { b.new ≡ splice b.old at 2 (le 2 v) }
{
    put_u8(b, at, (v % 256) as u8);
    put_u8(b, at + 1, (v / 256) as u8);
}

pub fn put_u32(b: &mut [u8], at: usize, v: u32)
    requires { at + 4 ≤ length b.old }
    ensures { b.new ≡ splice b.old at 4 (le 4 v) }
{
    put_u16(b, at, (v % 65536) as u16);
    put_u16(b, at + 2, (v / 65536) as u16);
}

pub fn put_u64(b: &mut [u8], at: usize, v: u64)
    requires { at + 8 ≤ length b.old }
    ensures { b.new ≡ splice b.old at 8 (le 8 v) }
{
    put_u32(b, at, (v % 4294967296) as u32);
    put_u32(b, at + 4, (v / 4294967296) as u32);
}

// "Byte 0 kind, 1 format (1), 2-3 position in the sequence": the block begins so.
pub fn headed(b: &[u8], kind: Kind, position: u16) -> bool
    requires { 4 ≤ length b.now }
    ensures { result ≡ heading b.now kind position }
{
    if u8_at(b, 0) != u8::from(kind) {
        return false;
    }
    if u8_at(b, 1) != 1 {
        return false;
    }
    u16_at(b, 2) == position
}

// The kind and format 1 are written in front.
pub fn put_kind(b: &mut [u8], kind: Kind)
    requires { 2 ≤ length b.old }
    ensures { b.new ≡ splice (splice b.old 0 1 (le 1 (kind_number kind))) 1 1 (le 1 1) }
{
    put_u8(b, 0, u8::from(kind));
    put_u8(b, 1, 1);
}

// 254 words and their running sums add up to less than 2 ^ 32: so the remainders are taken once, after the loop.
pub fn sums_of(b: &[u8]) -> Sums
    requires { length b.now ≡ 512 }
    ensures { result ≡ sums b.now }
{
    let mut s1: u32 = 0;
    let mut s2: u32 = 0;
    for word in b[..508].chunks_exact(2) {
        s1 += u16_at(word, 0) as u32;
        s2 += s1;
    }
    Sums {
        s1: s1 % 65535,
        s2: s2 % 65535,
    }
}

// Whether the check that stands in the block is the one of its bytes.
pub fn is_sealed(b: &[u8]) -> bool
    requires { length b.now ≡ 512 }
    ensures { result ≡ sealed b.now }
{
    let s = sums_of(b);
    u16_at(b, 508) as u32 == s.s1 && u16_at(b, 510) as u32 == s.s2
}

// The check over the first 508 bytes is written behind them.
pub fn seal_block(b: &mut [u8])
    requires { length b.old ≡ 512 }
    ensures { b.new ≡ seal (take 508 b.old) }
{
    let s = sums_of(b);
    put_u16(b, 508, s.s1 as u16);
    put_u16(b, 510, s.s2 as u16);
}

// Whether the bytes from `from` to before `to` are zero. `|` takes all of a part and not only those up to the first that is not: so the compiler
// tests sixteen at a time, where `all` goes one by one. A long run ends with the first part of a block's length that is not zero.
pub fn is_zero(b: &[u8], from: usize, to: usize) -> bool
    requires { (from ≤ to) × (to ≤ length b.now) }
    ensures { result ≡ all? (λ x. eqb x 0) (cut b.now from (to - from)) }
{
    for part in b[from..to].chunks(512) {
        if part.iter().fold(0, |any, byte| any | *byte) != 0 {
            return false;
        }
    }
    true
}

// Whether two slices hold the same bytes. Slices of other lengths do not.
pub fn same_bytes(a: &[u8], b: &[u8]) -> bool
    ensures { result ≡ same_list a.now b.now }
{
    a == b
}

// Zeros from `from` to before `to`.
pub fn clear(b: &mut [u8], from: usize, to: usize)
    requires { (from ≤ to) × (to ≤ length b.old) }
    ensures { b.new ≡ splice b.old from (to - from) (replicate (to - from) 0) }
{
    b[from..to].fill(0);
}

// All of `src` into `out`, from `at` on. `copy_from_slice` is shorter, but is C's `memmove`, which the library does not ask for.
pub fn copy_in(out: &mut [u8], at: usize, src: &[u8])
    requires { at + length src.now ≤ length out.old }
    ensures { out.new ≡ splice out.old at (length src.now) src.now }
{
    for i in 0..src.len() {
        out[at + i] = src[i];
    }
}

// Eight bytes `words` times, from `from` on, over those from `to` on, which lies no lower. The two parts may overlap: the last eight go
// first. `copy_within` is shorter, but is C's `memmove`, which the library does not ask for.
pub fn move_up(run: &mut [u8], from: usize, to: usize, words: usize)
    requires { (from ≤ to) × (to + 8 * words ≤ length run.old) }
    ensures { run.new ≡ splice run.old to (8 * words) (cut run.old from (8 * words)) }
{
    for k in (0..words).rev() {
        let eight = u64_at(run, from + 8 * k);
        put_u64(run, to + 8 * k, eight);
    }
}

// The same to a place that lies no higher: the first eight go first.
pub fn move_down(run: &mut [u8], from: usize, to: usize, words: usize)
    requires { (to ≤ from) × (from + 8 * words ≤ length run.old) }
    ensures { run.new ≡ splice run.old to (8 * words) (cut run.old from (8 * words)) }
{
    for k in 0..words {
        let eight = u64_at(run, from + 8 * k);
        put_u64(run, to + 8 * k, eight);
    }
}

// The `8 * words` bytes from `from` on also to `to`, wherever that lies.
pub fn move_run(run: &mut [u8], from: usize, to: usize, words: usize)
    requires { (from + 8 * words ≤ length run.old) × (to + 8 * words ≤ length run.old) }
    ensures { run.new ≡ splice run.old to (8 * words) (cut run.old from (8 * words)) }
{
    if from < to {
        return move_up(run, from, to, words);
    }
    move_down(run, from, to, words)
}
