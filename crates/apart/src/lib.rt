// "No dot stands in two records", of a run of point blocks, without comparing each with each: each dot passed leaves two
// marks, and only one whose marks both stand already is looked for.
#![tactic(auto)]

ghost use Rattle.std.specs.Prelude.{◌≡◌, true, ◌+◌, ◌*◌, ◌≤◌, ◌<◌, length};
ghost use Rattle.numbers.specs.Words.{every, some?};
ghost use Rattle.block.specs.Fields.{field, upto};
ghost use Rattle.meaning.specs.Object.{has_dot};
ghost use Rattle.layout.specs.PointBlock.{form_1, decode_stored};
ghost use Rattle.apart.specs.Apart.{point_of, apart_from_earlier, Few};
ghost use Rattle.apart.specs.Marks.{marked, with_mark, both_marked, with_both, Noted};

use numbers::Dot;

// One of the versions of a point block has this dot. A `for`: in this innermost loop of `good` an `any` takes half as much again (docs/LOOK-BACK.md).
pub fn has_version(b: &[u8], d: Dot) -> bool
    requires { (length b.now ≡ 512) × (field b.now 5 1 ≤ 8) }
    ensures { result ≡ has_dot (decode_stored form_1 b.now).object.versions d }
{
    for i in 0..record::version_count(b) as usize {
        if d.same(record::version_dot(b, i)) {
            return true;
        }
    }
    false
}

// One of the first n points has a version of this dot.
pub fn among(points: &[u8], n: usize, d: Dot) -> bool
    requires { (512 * n ≤ length points.now) × Few points.now n }
    ensures { result ≡ some? (λ p. has_dot p.object.versions d) (upto n (point_of points.now)) }
{
    (0..n).any(|i| has_version(&points[512 * i..512 * i + 512], d))
}

// Sets mark k, and answers whether it stood there already.
fn mark(marks: &mut [u64; 32], k: usize) -> bool
    requires { k < 2048 }
    ensures { (result ≡ marked marks.old k) × (marks.new ≡ with_mark marks.old k) }
{
    let at = k / 64;
    let old = marks[at];
    marks[at] = old | (1u64 << (k % 64));
    (old >> (k % 64)) % 2 == 1
}

// Sets both marks of the dot, and answers whether both stood there already.
fn mark_dot(marks: &mut [u64; 32], d: Dot) -> bool
    ensures { (result ≡ both_marked marks.old d) × (marks.new ≡ with_both marks.old d) }
{
    let n = d.who;
    let c = d.count;
    let from = 128 * (n.0 as usize % 8);
    let first = mark(marks, from + c.0 as usize % 128);
    let second = mark(marks, 1024 + from + c.0 as usize % 127);
    first && second
}

// The j-th point shares no dot with one before it. The marks of its own dots are set on the way.
fn apart_from_earlier(points: &[u8], j: usize, marks: &mut [u64; 32]) -> bool
    requires { (512 * (j + 1) ≤ length points.now) × Few points.now (j + 1) × Noted marks.old points.now j }
    ensures { (result ≡ apart_from_earlier points.now j) × (result ≡ true → Noted marks.new points.now (j + 1)) }
{
    let at = 512 * j;
    let b = &points[at..at + 512];
    for i in 0..record::version_count(b) as usize {
        let d = record::version_dot(b, i);
        if mark_dot(marks, d) && among(points, j, d) {
            return false;
        }
    }
    true
}

// No two of the first n points share a dot.
pub fn points_apart(points: &[u8], n: usize) -> bool
    requires { (512 * n ≤ length points.now) × Few points.now n }
    ensures { result ≡ every (upto n (apart_from_earlier points.now)) }
{
    let mut marks: [u64; 32] = [0; 32];
    for j in 0..n {
        if !apart_from_earlier(points, j, &mut marks) {
            return false;
        }
    }
    true
}
